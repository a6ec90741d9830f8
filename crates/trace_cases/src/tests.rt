use std::test::Fail;
use trace::act::{Act, Step};
use trace::fault::{ReadRefusal, WriteRefusal};
use trace_reader::reader::{read_input, read_trace};
use trace_writer::writer::{write_act, write_trace};

const BLANK: Step = Step {
    line: 0,
    act: Act::Retire,
};

// How a trace is refused: number, cause, field, line and byte place. All are 0 where it is read.
#[derive(Clone, Copy, PartialEq, Eq, Debug)]
struct Refused(u32, u32, u32, usize, usize);

fn outcome(trace: &[u8]) -> Refused {
    let mut steps = [BLANK; 2];
    match read_trace(trace, &mut steps) {
        Ok(_) => Refused(0, 0, 0, 0, 0),
        Err(why @ ReadRefusal::Line(fault)) => Refused(
            why.number(),
            fault.cause(),
            fault.field(),
            fault.place.line,
            fault.place.start,
        ),
        Err(why @ ReadRefusal::Full { line }) => Refused(why.number(), 0, 0, line, 0),
    }
}

#[test]
fn each_line_at_fault_names_its_cause_and_field(rt: HostRuntime) {
    let cases: [(&[u8], u32, u32); 34] = [
        (b"O,1,,", 1, 0),
        (b"X", 1, 0),
        (b"\n", 2, 0),
        (b"X,1,\n", 2, 0),
        (b"\xff\x80,\x00,,", 1, 0),
        (b"O,1,,,\n", 3, 0),
        (b"X,x,64,,\n", 3, 0),
        (b"X,1,,\n", 4, 1),
        (b"o,1,,\n", 4, 1),
        (b"OO,1,,\n", 4, 1),
        (b",1,,\n", 4, 1),
        (b",,,\n", 4, 1),
        (b"\xff,\x80,\x00,\xfe\n", 4, 1),
        (b"X,x,64,\n", 4, 1),
        (b"O,4294967296,,\n", 5, 2),
        (b"O,100000000000000000000000000000000000000000000,,\n", 5, 2),
        (b"R,1,64,0\n", 5, 3),
        (b"W,1,0,4294967296\n", 5, 4),
        (b"O,x,,\n", 6, 2),
        (b"O,01,,\n", 6, 2),
        (b"O,00,,\n", 6, 2),
        (b"O,99999999999x,,\n", 6, 2),
        (b"R,1,+1,0\n", 6, 3),
        (b"P,,0,1 \n", 6, 4),
        (b"C,,,\n", 7, 2),
        (b"R,,64,x\n", 7, 2),
        (b"W,1,,0\n", 7, 3),
        (b"P,,0,\n", 7, 4),
        (b"P,1,0,0\n", 8, 2),
        (b"T,0,,\n", 8, 2),
        (b"O,1,0,\n", 8, 3),
        (b"T,,x,x\n", 8, 3),
        (b"A,1,,0\n", 8, 4),
        (b"C,1,,\r\n", 8, 4),
    ];
    for (line, cause, field) in cases {
        assert_eq!(rt; outcome(line), Refused(9, cause, field, 1, 0));
    }
}

#[test]
fn the_first_bad_line_decides(rt: HostRuntime) {
    let cases: [(&[u8], Refused); 7] = [
        (b"", Refused(0, 0, 0, 0, 0)),
        (b"O,0,,\nT,,,\n", Refused(0, 0, 0, 0, 0)),
        (
            b"O,4294967295,,\nR,1,63,4294967295\n",
            Refused(0, 0, 0, 0, 0),
        ),
        (b"O,1,,\nO,x,,\nX,,,\n", Refused(9, 6, 2, 2, 6)),
        (b"T,,,\nT,,,\nT,,,\n", Refused(13, 0, 0, 3, 0)),
        (b"T,,,\nT,,,\nT,,\n", Refused(9, 2, 0, 3, 10)),
        (b"T,,,\nT,,,\nT,,,", Refused(9, 1, 0, 3, 10)),
    ];
    for (text, expected) in cases {
        assert_eq!(rt; outcome(text), expected);
    }
}

#[test]
fn a_list_keeps_the_places_that_are_not_read_into(rt: HostRuntime) {
    let last = Step {
        line: 7,
        act: Act::Abort { job: 8 },
    };
    let mut steps = [last; 3];
    assert!(rt; read_trace(b"P,,5,6\nX,,,\n", &mut steps).is_err());
    assert_eq!(rt;
        steps,
        [
            Step {
                line: 1,
                act: Act::Peek { item: 5, value: 6 },
            },
            last,
            last,
        ]
    );
}

#[test]
fn an_input_that_is_too_long_is_not_looked_at(rt: HostRuntime) -> Result<(), Fail> {
    let mut steps = [BLANK; 1];
    assert_eq!(rt;
        read_input(&[b'\n'; 32769], &mut steps),
        Err(ReadRefusal::Full { line: 0 })
    );
    let Err(ReadRefusal::Line(fault)) = read_input(&[b'\n'; 32768], &mut steps) else {
        return Err(Fail::new("a line at fault"));
    };
    assert_eq!(rt; fault.cause(), 2);
    Ok(())
}

#[test]
fn a_line_is_written_where_it_fits(rt: HostRuntime) {
    let mut bytes = [b'.'; 7];
    assert_eq!(rt; write_act(&Act::Open { job: 1 }, &mut bytes), Ok(6));
    assert_eq!(rt; &bytes, b"O,1,,\n.");
    let peek = Act::Peek {
        item: 10,
        value: 4294967295,
    };
    assert_eq!(rt;
        write_act(&peek, &mut bytes),
        Err(WriteRefusal::DoesNotFit { length: 17 })
    );
    let far = Act::Read {
        job: 4294967295,
        item: 64,
        value: 4294967295,
    };
    assert_eq!(rt;
        write_act(&far, &mut bytes),
        Err(WriteRefusal::ItemAboveLimit { item: 64 })
    );
    assert_eq!(rt; &bytes, b"O,1,,\n.");
}

#[test]
fn a_trace_comes_back_as_it_was_written(rt: HostRuntime) {
    let acts = [
        Act::Open { job: 1 },
        Act::Read {
            job: 1,
            item: 0,
            value: 20,
        },
        Act::Write {
            job: 1,
            item: 63,
            value: 0,
        },
        Act::Commit { job: 1 },
        Act::Abort { job: 4294967295 },
        Act::Peek {
            item: 9,
            value: 100,
        },
        Act::Retire,
    ];
    let mut bytes = [b'.'; 64];
    assert_eq!(rt; write_trace(&acts, &mut bytes), Ok(59));
    let mut steps = [BLANK; 7];
    assert_eq!(rt; read_trace(&bytes[0..59], &mut steps), Ok(7));
    for (i, act) in acts.iter().enumerate() {
        assert_eq!(rt;
            steps[i],
            Step {
                line: i + 1,
                act: *act,
            }
        );
    }
}

// What a writer answers: the number of the refusal, or 0, and the length or the item that it tells.
fn told(answer: Result<usize, WriteRefusal>) -> (u32, usize) {
    match answer {
        Ok(length) => (0, length),
        Err(why @ WriteRefusal::ItemAboveLimit { item }) => (why.number(), item as usize),
        Err(why @ WriteRefusal::DoesNotFit { length }) => (why.number(), length),
    }
}

#[test]
fn a_refusal_tells_its_number_and_its_place(rt: HostRuntime) -> Result<(), Fail> {
    let mut bytes = [b'.'; 7];
    let peek = Act::Peek {
        item: 10,
        value: 4294967295,
    };
    assert_eq!(rt; told(write_act(&peek, &mut bytes)), (14, 17));
    let far = Act::Read {
        job: 4294967295,
        item: 64,
        value: 4294967295,
    };
    assert_eq!(rt; told(write_act(&far, &mut bytes)), (5, 64));
    let mut steps = [BLANK; 1];
    let Err(why) = read_input(&[b'\n'; 32769], &mut steps) else {
        return Err(Fail::new("an input that is too long"));
    };
    assert_eq!(rt; why.number(), 13);
    let Err(why @ ReadRefusal::Line(fault)) = read_input(&[b'\n'; 32768], &mut steps) else {
        return Err(Fail::new("a line at fault"));
    };
    assert_eq!(rt; why.number(), 9);
    assert_eq!(rt;
        (fault.field(), fault.place.line, fault.place.start),
        (0, 1, 0)
    );
    Ok(())
}
