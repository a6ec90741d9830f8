// What crosses the interface.
ghost use Rattle.std.specs.Prelude.{◌≡◌};
ghost use Rattle.entry.specs.Requests.{act_of};

use trace::act::Act;

// An act as four numbers: its kind, from 0 on open, read, write, commit, abort, peek, retire; and the job, the
// item and the value, as far as the kind has them.
#[repr(C)]
#[derive(Clone, Copy)]
pub struct Request {
    pub kind: u32,
    pub job: u32,
    pub item: u32,
    pub value: u32,
}

// An answer as two numbers: 0 or the number of a refusal, and a number that goes with it.
// The code is a number and no Result, since callers in C take it.
#[repr(C)]
#[derive(Clone, Copy)]
pub struct Reply {
    pub code: u32,
    pub number: usize,
}

impl Request {
    // The act of the request, if its kind is known. A kind is a number, since callers in C give it. Not `TryFrom`: there
    // is no error to tell.
    pub(crate) fn act(&self) -> Option<Act>
        ensures { result ≡ act_of self.now }
    {
        let Request {
            kind,
            job,
            item,
            value,
        } = *self;
        match kind {
            0 => Some(Act::Open { job }),
            1 => Some(Act::Read { job, item, value }),
            2 => Some(Act::Write { job, item, value }),
            3 => Some(Act::Commit { job }),
            4 => Some(Act::Abort { job }),
            5 => Some(Act::Peek { item, value }),
            6 => Some(Act::Retire),
            _ => None,
        }
    }
}
