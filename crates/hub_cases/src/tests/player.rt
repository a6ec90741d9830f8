// Plays a list of calls on a hub and compares the answers.
use history::refusal::Refusal;
use hub::Hub;
use std::process::Abort;
use store::{LogStore, MemoryStore, Store};

// A call, with the numbers that it takes: job, item, value. `Retire` lends so many places, 100 at most.
// No `Act`: an act of a trace tells the number of an opened job and the value that is read, a call doesn't.
#[derive(Clone, Copy)]
pub(crate) enum Call {
    Open,
    Read(u32, u32),
    Write(u32, u32, u32),
    Commit(u32),
    Abort(u32),
    Retire(usize),
    Peek(u32),
}

// What a call answers. `Wrote` has the count and the first three places of the list, in which every place
// was 9.
// Beside history's `Answer` it has the refusal, so that one list holds all, and what a retire wrote.
#[derive(Clone, Copy, PartialEq, Eq, Debug)]
pub(crate) enum Answer {
    Done,
    Is(u32),
    Wrote(usize, [u32; 3]),
    No(Refusal),
}

fn retire<S: Store>(hub: &mut Hub<S>, places: usize) -> Answer {
    let mut list = [9; 100];
    let count = hub.retire(&mut list[..places.min(100)]);
    Answer::Wrote(count, [list[0], list[1], list[2]])
}

fn make<S: Store>(hub: &mut Hub<S>, call: Call) -> Answer {
    let answer = match call {
        Call::Open => hub.open().map(Answer::Is),
        Call::Read(job, item) => hub.read(job, item).map(Answer::Is),
        Call::Write(job, item, value) => hub.write(job, item, value).map(|_| Answer::Done),
        Call::Commit(job) => hub.commit(job).map(|_| Answer::Done),
        Call::Abort(job) => hub.abort(job).map(|_| Answer::Done),
        Call::Retire(places) => Ok(retire(hub, places)),
        Call::Peek(item) => hub.peek(item).map(Answer::Is),
    };
    answer.unwrap_or_else(Answer::No)
}

// Makes the calls, one after another; each must be answered so.
pub(crate) fn play<S: Store>(rt: &impl Abort, hub: &mut Hub<S>, turns: &[(Call, Answer)]) {
    for (call, answer) in turns {
        assert_eq!(rt; make(hub, *call), *answer);
    }
}

// Plays the calls on a hub over a memory of 64 zeros, and on one over a log of 64 items with room for 8
// records; the first job of each gets the number 1.
pub(crate) fn play_on_both(rt: &impl Abort, turns: &[(Call, Answer)]) {
    let mut words = [0; 64];
    let mut over_memory = Hub::new(MemoryStore::new(&mut words), 1);
    play(rt, &mut over_memory, turns);
    let mut bytes = [0xFF; 64];
    let mut over_log = Hub::new(LogStore::new(&mut bytes, 64), 1);
    play(rt, &mut over_log, turns);
}
