// The worked examples.
use super::player::Answer::{Done, Is, No, Wrote};
use super::player::Call::{Abort, Commit, Open, Peek, Read, Retire, Write};
use super::player::{play, play_on_both};
use history::answer::Answer;
use history::refusal::Refusal::{
    AlreadyCommitted, ClosesCycle, ItemHeld, ItemNotServed, NoRoom, NotPresent,
};
use hub::Hub;
use store::{LogStore, MemoryStore, Store};
use trace::act::Act;

#[test]
fn jobs_retire_by_the_edge_and_not_by_their_commits(rt: HostRuntime) {
    play_on_both(
        &rt,
        &[
            (Open, Is(1)),
            (Open, Is(2)),
            (Read(1, 0), Is(0)),
            (Write(2, 0, 7), Done),
            (Read(1, 0), No(ItemHeld { holder: 2 })),
            (Commit(2), Done),
            (Write(1, 1, 5), Done),
            (Retire(32), Wrote(0, [9, 9, 9])),
            (Commit(1), Done),
            (Retire(32), Wrote(2, [1, 2, 9])),
            (Peek(0), Is(7)),
        ],
    );
}

#[test]
fn a_job_that_reads_again_after_an_overwrite_is_refused_and_gone(rt: HostRuntime) {
    play_on_both(
        &rt,
        &[
            (Open, Is(1)),
            (Open, Is(2)),
            (Read(1, 0), Is(0)),
            (Write(2, 0, 7), Done),
            (Commit(2), Done),
            (Read(1, 0), No(ClosesCycle)),
            (Read(1, 0), No(NotPresent)),
            (Retire(32), Wrote(1, [2, 9, 9])),
        ],
    );
}

#[test]
fn write_skew_is_refused(rt: HostRuntime) {
    play_on_both(
        &rt,
        &[
            (Open, Is(1)),
            (Open, Is(2)),
            (Read(1, 0), Is(0)),
            (Read(1, 1), Is(0)),
            (Read(2, 0), Is(0)),
            (Read(2, 1), Is(0)),
            (Write(1, 0, 1), Done),
            (Write(2, 1, 1), No(ClosesCycle)),
            (Commit(1), Done),
            (Peek(0), Is(1)),
            (Peek(1), Is(0)),
        ],
    );
}

#[test]
fn no_path_leads_through_an_aborted_job(rt: HostRuntime) {
    play_on_both(
        &rt,
        &[
            (Open, Is(1)),
            (Open, Is(2)),
            (Open, Is(3)),
            (Read(1, 0), Is(0)),
            (Write(2, 0, 4), Done),
            (Read(2, 1), Is(0)),
            (Write(3, 1, 9), Done),
            (Abort(2), Done),
            (Commit(3), Done),
            (Read(1, 1), Is(9)),
            (Commit(1), Done),
            (Retire(32), Wrote(2, [3, 1, 9])),
        ],
    );
}

// Without the abort the same read closes a cycle.
#[test]
fn a_path_leads_through_a_committed_job(rt: HostRuntime) {
    play_on_both(
        &rt,
        &[
            (Open, Is(1)),
            (Open, Is(2)),
            (Open, Is(3)),
            (Read(1, 0), Is(0)),
            (Write(2, 0, 4), Done),
            (Read(2, 1), Is(0)),
            (Write(3, 1, 9), Done),
            (Commit(2), Done),
            (Commit(3), Done),
            (Read(1, 1), No(ClosesCycle)),
        ],
    );
}

#[test]
fn two_writes_of_one_item_need_one_record(rt: HostRuntime) {
    let mut bytes = [0xFF; 8];
    let mut hub = Hub::new(LogStore::new(&mut bytes, 2), 1);
    play(
        &rt,
        &mut hub,
        &[
            (Open, Is(1)),
            (Write(1, 0, 3), Done),
            (Write(1, 0, 4), Done),
            (Commit(1), Done),
            (Peek(0), Is(4)),
        ],
    );
    let log = hub.into_store();
    assert_eq!(rt; [log.get(0), log.get(1)], [Some(4), Some(0)]);
    assert_eq!(rt; bytes, *b"\xA5\0\0\0\0\0\0\x04");
}

#[test]
fn writes_of_two_items_need_two_records(rt: HostRuntime) {
    let mut bytes = [0xFF; 8];
    let mut hub = Hub::new(LogStore::new(&mut bytes, 2), 1);
    play(
        &rt,
        &mut hub,
        &[
            (Open, Is(1)),
            (Write(1, 0, 3), Done),
            (Write(1, 0, 4), Done),
            (Write(1, 1, 5), Done),
            (Commit(1), No(NoRoom)),
            (Read(1, 1), Is(5)),
            (Peek(0), Is(0)),
            (Abort(1), Done),
        ],
    );
}

#[test]
fn a_hub_over_no_items_serves_none(rt: HostRuntime) {
    let turns = [
        (Open, Is(1)),
        (Read(1, 0), No(ItemNotServed)),
        (Write(1, 0, 1), No(ItemNotServed)),
        (Peek(0), No(ItemNotServed)),
        (Commit(1), Done),
        (Retire(1), Wrote(1, [1, 9, 9])),
    ];
    let mut words = [];
    let mut over_memory = Hub::new(MemoryStore::new(&mut words), 1);
    play(&rt, &mut over_memory, &turns);
    let mut bytes = [0; 8];
    let mut over_log = Hub::new(LogStore::new(&mut bytes, 0), 1);
    play(&rt, &mut over_log, &turns);
}

#[test]
fn a_job_sees_its_own_write_and_peek_does_not(rt: HostRuntime) {
    play_on_both(
        &rt,
        &[
            (Open, Is(1)),
            (Write(1, 0, 5), Done),
            (Read(1, 0), Is(5)),
            (Peek(0), Is(0)),
            (Commit(1), Done),
            (Peek(0), Is(5)),
        ],
    );
}

#[test]
fn none_retires_into_no_places(rt: HostRuntime) {
    play_on_both(
        &rt,
        &[
            (Open, Is(1)),
            (Commit(1), Done),
            (Retire(0), Wrote(0, [9, 9, 9])),
            (Retire(32), Wrote(1, [1, 9, 9])),
        ],
    );
}

// What an act says of a job's number or of a value read is not asked.
#[test]
fn every_act_is_taken_as_its_call(rt: HostRuntime) {
    let mut words = [0; 2];
    let mut hub = Hub::new(MemoryStore::new(&mut words), 1);
    let mut list = [9; 3];
    let turns = [
        (Act::Open { job: 7 }, Ok(Answer::Number(1))),
        (
            Act::Write {
                job: 1,
                item: 0,
                value: 5,
            },
            Ok(Answer::Done),
        ),
        (
            Act::Read {
                job: 1,
                item: 0,
                value: 0,
            },
            Ok(Answer::Number(5)),
        ),
        (Act::Commit { job: 1 }, Ok(Answer::Done)),
        (Act::Abort { job: 1 }, Err(AlreadyCommitted)),
        (Act::Peek { item: 0, value: 0 }, Ok(Answer::Number(5))),
        (Act::Retire, Ok(Answer::Count(1))),
    ];
    for (act, answer) in turns {
        assert_eq!(rt; hub.take(act, &mut list), answer);
    }
    assert_eq!(rt; list, [1, 9, 9]);
}
