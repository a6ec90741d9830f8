// The ends of the table, of the numbers, of the items, of lent lists and of logs.
use super::player::Answer::{Done, Is, No, Wrote};
use super::player::Call::{Abort, Commit, Open, Peek, Read, Retire, Write};
use super::player::{play, play_on_both};
use history::refusal::Refusal::{
    AlreadyCommitted, ItemHeld, ItemNotServed, NoRoom, NotPresent, NumbersSpent, TableFull,
};
use hub::Hub;
use store::{LogStore, MemoryStore, Store};

// Opens 32 jobs, of which the first gets this number.
fn open_32<S: Store>(rt: &impl std::process::Abort, hub: &mut Hub<S>, first: u32) {
    // By number: it is added to the first one.
    for k in 0..32 {
        play(rt, hub, &[(Open, Is(first.saturating_add(k)))]);
    }
}

#[test]
fn a_full_table_takes_a_job_when_one_is_gone(rt: HostRuntime) {
    let mut bytes = [0; 8];
    let mut hub = Hub::new(LogStore::new(&mut bytes, 1), 1);
    open_32(&rt, &mut hub, 1);
    play(
        &rt,
        &mut hub,
        &[
            (Open, No(TableFull)),
            (Abort(1), Done),
            (Open, Is(33)),
            (Open, No(TableFull)),
        ],
    );
}

#[test]
fn a_committed_job_keeps_its_slot_until_it_retires(rt: HostRuntime) {
    let mut words = [0; 3];
    let mut hub = Hub::new(MemoryStore::new(&mut words), 1);
    open_32(&rt, &mut hub, 1);
    for job in 1..33 {
        play(&rt, &mut hub, &[(Commit(job), Done)]);
    }
    play(
        &rt,
        &mut hub,
        &[
            (Open, No(TableFull)),
            (Retire(100), Wrote(32, [1, 2, 3])),
            (Open, Is(33)),
        ],
    );
}

#[test]
fn the_last_number_is_given_out_once(rt: HostRuntime) {
    let turns = [
        (Open, Is(4294967295)),
        (Open, No(NumbersSpent)),
        (Write(4294967295, 0, 4294967295), Done),
        (Commit(4294967295), Done),
        (Retire(1), Wrote(1, [4294967295, 9, 9])),
        (Open, No(NumbersSpent)),
        (Peek(0), Is(4294967295)),
    ];
    let mut words = [0; 1];
    let mut over_memory = Hub::new(MemoryStore::new(&mut words), 4294967295);
    play(&rt, &mut over_memory, &turns);
    let mut bytes = [0; 8];
    let mut over_log = Hub::new(LogStore::new(&mut bytes, 1), 4294967295);
    play(&rt, &mut over_log, &turns);
}

#[test]
fn a_full_table_is_told_before_spent_numbers(rt: HostRuntime) {
    let mut words = [0; 1];
    let mut hub = Hub::new(MemoryStore::new(&mut words), 4294967264);
    open_32(&rt, &mut hub, 4294967264);
    play(
        &rt,
        &mut hub,
        &[
            (Open, No(TableFull)),
            (Abort(4294967264), Done),
            (Open, No(NumbersSpent)),
        ],
    );
}

#[test]
fn a_number_that_was_never_opened_is_of_no_job(rt: HostRuntime) {
    play_on_both(
        &rt,
        &[
            (Open, Is(1)),
            (Read(0, 0), No(NotPresent)),
            (Write(2, 0, 1), No(NotPresent)),
            (Read(4294967295, 64), No(NotPresent)),
            (Write(4294967295, 0, 1), No(NotPresent)),
            (Commit(0), No(NotPresent)),
            (Commit(2), No(NotPresent)),
            (Abort(0), No(NotPresent)),
            (Abort(4294967295), No(NotPresent)),
            (Open, Is(2)),
        ],
    );
}

#[test]
fn a_committed_job_takes_no_call(rt: HostRuntime) {
    play_on_both(
        &rt,
        &[
            (Open, Is(1)),
            (Commit(1), Done),
            (Read(1, 64), No(AlreadyCommitted)),
            (Write(1, 0, 1), No(AlreadyCommitted)),
            (Commit(1), No(AlreadyCommitted)),
            (Abort(1), No(AlreadyCommitted)),
            (Retire(1), Wrote(1, [1, 9, 9])),
            (Abort(1), No(NotPresent)),
        ],
    );
}

#[test]
fn a_list_of_one_place_takes_one_job_at_a_time(rt: HostRuntime) {
    play_on_both(
        &rt,
        &[
            (Open, Is(1)),
            (Open, Is(2)),
            (Open, Is(3)),
            (Commit(3), Done),
            (Commit(2), Done),
            (Retire(1), Wrote(1, [2, 9, 9])),
            (Commit(1), Done),
            (Retire(1), Wrote(1, [1, 9, 9])),
            (Retire(100), Wrote(1, [3, 9, 9])),
            (Retire(100), Wrote(0, [9, 9, 9])),
        ],
    );
}

#[test]
fn a_held_item_tells_its_holder_and_is_free_after_an_abort(rt: HostRuntime) {
    play_on_both(
        &rt,
        &[
            (Open, Is(1)),
            (Open, Is(2)),
            (Write(2, 63, 8), Done),
            (Write(1, 63, 6), No(ItemHeld { holder: 2 })),
            (Read(1, 63), No(ItemHeld { holder: 2 })),
            (Abort(2), Done),
            (Read(1, 63), Is(0)),
            (Write(1, 63, 6), Done),
            (Commit(1), Done),
            (Peek(63), Is(6)),
        ],
    );
}

#[test]
fn only_the_first_64_items_are_served(rt: HostRuntime) {
    let turns = [
        (Open, Is(1)),
        (Write(1, 63, 5), Done),
        (Write(1, 64, 5), No(ItemNotServed)),
        (Read(1, 64), No(ItemNotServed)),
        (Peek(64), No(ItemNotServed)),
        (Peek(4294967295), No(ItemNotServed)),
        (Commit(1), Done),
        (Peek(63), Is(5)),
    ];
    play_on_both(&rt, &turns);
    let mut words = [7; 66];
    let mut over_memory = Hub::new(MemoryStore::new(&mut words), 1);
    play(&rt, &mut over_memory, &turns);
    let mut bytes = [0; 8];
    let mut over_log = Hub::new(LogStore::new(&mut bytes, 255), 1);
    play(&rt, &mut over_log, &turns);
    assert_eq!(rt; [words[62], words[63], words[64], words[65]], [7, 5, 7, 7]);
}

#[test]
fn a_full_log_refuses_commits_that_put(rt: HostRuntime) {
    let mut bytes = [0; 15];
    let mut hub = Hub::new(LogStore::new(&mut bytes, 2), 1);
    play(
        &rt,
        &mut hub,
        &[
            (Open, Is(1)),
            (Open, Is(2)),
            (Write(1, 0, 3), Done),
            (Commit(1), Done),
            (Write(2, 1, 4), Done),
            (Commit(2), No(NoRoom)),
            (Read(2, 1), Is(4)),
            (Abort(2), Done),
            (Open, Is(3)),
            (Commit(3), Done),
            (Peek(0), Is(3)),
        ],
    );
}
