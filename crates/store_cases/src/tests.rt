ghost use Rattle.std.specs.Prelude.{◌≡◌, ◌%◌};

use crate::front::{put_front, put_then_get};
use store::{LogStore, MemoryStore, PutRefused, Store};

// The bytes of a log of three items, and what they mean.
#[derive(Clone, Copy)]
struct Image {
    bytes: [u8; 24],
    values: [u32; 3],
    room: u64,
}

const IMAGES: [Image; 6] = [
    // No record is used.
    Image {
        bytes: *b"........................",
        values: [0, 0, 0],
        room: 3,
    },
    // The value stands high byte first.
    Image {
        bytes: *b"\xA5\x01\0\0\x12\x34\x56\x78................",
        values: [0, 0x12345678, 0],
        room: 2,
    },
    // The last record of an item counts, and bytes 2 and 3 don't.
    Image {
        bytes: *b"\xA5\x02..\0\0\0\x09\xA5\0\0\0\0\0\0\x05\xA5\x02\0\0\0\0\x01\0",
        values: [5, 0, 256],
        room: 0,
    },
    // A record of an item that the store does not have is used, and counts for no item.
    Image {
        bytes: *b"\xA5\x03\0\0\0\0\0\x01\xA5\xFF\0\0\0\0\0\x02........",
        values: [0, 0, 0],
        room: 1,
    },
    // A record behind one with no mark is not used.
    Image {
        bytes: *b"\xA5\0\0\0\0\0\0\x01\xA4\0\0\0\0\0\0\x02\xA5\0\0\0\0\0\0\x03",
        values: [1, 0, 0],
        room: 2,
    },
    // So none is used if the first has no mark.
    Image {
        bytes: *b".\xA5\0\0\0\0\0\x01\xA5\0\0\0\0\0\0\x02\xA5\0\0\0\0\0\0\x03",
        values: [0, 0, 0],
        room: 3,
    },
];

#[test]
fn a_log_means_what_its_used_records_say(rt: HostRuntime) {
    for image in IMAGES {
        let mut bytes = image.bytes;
        let log = LogStore::new(&mut bytes, 3);
        let [a, b, c] = image.values;
        let held = [log.get(0), log.get(1), log.get(2), log.get(3)];
        assert_eq!(rt; held, [Some(a), Some(b), Some(c), None]);
        assert_eq!(rt; log.room(), image.room);
        assert_eq!(rt; bytes, image.bytes);
    }
}

#[test]
fn a_put_does_not_wake_records_behind_it(rt: HostRuntime) {
    let mut bytes = IMAGES[4].bytes;
    let mut log = LogStore::new(&mut bytes, 3);
    assert_eq!(rt; log.put(1, 7), Ok(()));
    assert_eq!(rt; [log.get(0), log.get(1)], [Some(1), Some(7)]);
    assert_eq!(rt; log.room(), 1);
}

#[test]
fn a_log_is_filled_to_its_last_record(rt: HostRuntime) {
    let mut bytes = *b"....................";
    let mut log = LogStore::new(&mut bytes, 2);
    let granted = [log.put(1, 0x01020304), log.put(1, 5)];
    let refused = [log.put(0, 6), log.put(2, 6)];
    assert_eq!(rt; granted, [Ok(()), Ok(())]);
    assert_eq!(rt;
        refused,
        [Err(PutRefused::NoRoom), Err(PutRefused::Outside)]
    );
    assert_eq!(rt;
        bytes,
        *b"\xA5\x01\0\0\x01\x02\x03\x04\xA5\x01\0\0\0\0\0\x05...."
    );
}

#[test]
fn a_log_of_no_items_has_room_and_takes_nothing(rt: HostRuntime) {
    let mut bytes = [0; 8];
    let mut log = LogStore::new(&mut bytes, 0);
    assert!(rt; log.items() == 0 && log.room() == 1);
    assert_eq!(rt; log.get(0), None);
    assert_eq!(rt; log.put(0, 1), Err(PutRefused::Outside));
}

#[test]
fn fewer_bytes_than_a_record_are_no_room(rt: HostRuntime) {
    let mut bytes = [0xA5; 7];
    let mut log = LogStore::new(&mut bytes, 1);
    assert_eq!(rt; log.room(), 0);
    assert_eq!(rt; log.put(0, 1), Err(PutRefused::NoRoom));
    assert_eq!(rt; bytes, [0xA5; 7]);
}

#[test]
fn generic_code_runs_over_both_stores(rt: HostRuntime) {
    let mut words = [9; 4];
    let mut bytes = [0; 24];
    let mut memory = MemoryStore::new(&mut words);
    let mut log = LogStore::new(&mut bytes, 4);
    let counts = [
        put_front(&mut memory, &[1, 2]),
        put_front(&mut log, &[1, 2]),
    ];
    let inside = [
        put_then_get(&mut memory, 3, 7),
        put_then_get(&mut log, 3, 7),
    ];
    let refused = [
        put_then_get(&mut memory, 4, 7),
        put_then_get(&mut log, 2, 7),
    ];
    assert_eq!(rt; counts, [2, 2]);
    assert_eq!(rt; inside, [Some(7), Some(7)]);
    assert_eq!(rt; refused, [None, Some(0)]);
    assert_eq!(rt; [memory.room(), log.room()], [4294967295, 0]);
    assert_eq!(rt; words, [1, 2, 9, 7]);
}

// Lends memory to a store, puts a value and answers what stands there when the store is gone.
fn put_in_lent_memory(value: u32) -> u32
    ensures { result ≡ value }
{
    let mut words = [0; 4];
    {
        let mut memory = MemoryStore::new(&mut words);
        let _ = memory.put(1, value);
    }
    words[1]
}

// Lends bytes to a log, puts a value and answers the last byte of it when the log is gone.
fn put_in_lent_bytes(value: u32) -> u8
    ensures { result ≡ value % 256 }
{
    let mut bytes = [0; 8];
    {
        let mut log = LogStore::new(&mut bytes, 2);
        let _ = log.put(1, value);
    }
    bytes[7]
}

#[test]
fn the_lender_finds_what_was_put(rt: HostRuntime) {
    assert_eq!(rt; put_in_lent_memory(77), 77);
    assert_eq!(rt; put_in_lent_bytes(0x0102), 2);
}
