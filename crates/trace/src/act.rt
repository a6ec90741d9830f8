ghost use Rattle.std.specs.Prelude.{◌≡◌};
ghost use Rattle.trace.specs.Lines.{job_of, item_of, value_of, kind_of_act, Within};
ghost use Rattle.trace.specs.declared.fault.Column.TheVariants.{Job, Value};

use crate::kind::Kind;

// One thing that was asked of a hub. A job is a database transaction and goes by its number. An item
// goes by a number too, and has a value.
#[derive(Clone, Copy, PartialEq, Eq, Debug)]
pub enum Act {
    Open { job: u32 },
    Read { job: u32, item: u32, value: u32 },
    Write { job: u32, item: u32, value: u32 },
    Commit { job: u32 },
    Abort { job: u32 },
    Peek { item: u32, value: u32 },
    Retire,
}

impl Act {
    // What it does. By cases: each act is of one kind.
    pub fn kind(&self) -> Kind
        ensures { result ≡ kind_of_act self.now }
    {
        match self {
            Act::Open { .. } => Kind::Open,
            Act::Read { .. } => Kind::Read,
            Act::Write { .. } => Kind::Write,
            Act::Commit { .. } => Kind::Commit,
            Act::Abort { .. } => Kind::Abort,
            Act::Peek { .. } => Kind::Peek,
            Act::Retire => Kind::Retire,
        }
    }

    // The job that it names.
    pub fn job(&self) -> Option<u32>
        ensures value { result ≡ job_of self.now }
        ensures bound { Within Job (job_of self.now) }
    {
        match self {
            Act::Open { job }
            | Act::Read { job, .. }
            | Act::Write { job, .. }
            | Act::Commit { job }
            | Act::Abort { job } => Some(*job),
            Act::Peek { .. } | Act::Retire => None,
        }
    }

    // The item that it names. By a match of its own, as the value below: each names its own field.
    pub fn item(&self) -> Option<u32>
        ensures { result ≡ item_of self.now }
    {
        match self {
            Act::Read { item, .. } | Act::Write { item, .. } | Act::Peek { item, .. } => {
                Some(*item)
            }
            Act::Open { .. } | Act::Commit { .. } | Act::Abort { .. } | Act::Retire => None,
        }
    }

    // The value that it carries.
    pub fn value(&self) -> Option<u32>
        ensures value { result ≡ value_of self.now }
        ensures bound { Within Value (value_of self.now) }
    {
        match self {
            Act::Read { value, .. } | Act::Write { value, .. } | Act::Peek { value, .. } => {
                Some(*value)
            }
            Act::Open { .. } | Act::Commit { .. } | Act::Abort { .. } | Act::Retire => None,
        }
    }
}

// An act and the line, from 1, that it was read from.
#[derive(Clone, Copy, PartialEq, Eq, Debug)]
pub struct Step {
    pub line: usize,
    pub act: Act,
}
