// What a hub answers to a call that it grants.
#[derive(Clone, Copy, PartialEq, Eq, Debug)]
pub enum Answer {
    // The number of the opened job, or a value.
    Number(u32),
    // The call has nothing to answer.
    Done,
    // A retire wrote so many numbers.
    Count(usize),
}
