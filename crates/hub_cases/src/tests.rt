// player   plays a list of calls on a hub and compares the answers
// worked   the worked examples
// limits   the ends of tables, numbers, items and logs
mod limits;
mod player;
mod worked;
