// The lines of a judgement.
ghost use Rattle.std.specs.Prelude.{Some};
ghost use Rattle.judge.specs.Texts.{line_text};

use std::fmt;
use trace::fault::ReadRefusal;
use verdict::judge::Verdict;
use verdict::refusal::JudgeRefusal;

// What a line tells.
#[derive(Clone, Copy, PartialEq, Eq, Debug)]
pub(crate) enum Line {
    // The verdict, and how many numbers follow.
    Decided(Verdict),
    // The number of a job.
    Job(u32),
    // Why the reader refuses the trace.
    NotRead(ReadRefusal),
    // Why the judge refuses its steps.
    NotJudged(JudgeRefusal),
}

impl fmt::Display for Line {
    ghost output = { λ l. Some (line_text l) };

    fn fmt<W: fmt::Write>(&self, f: &mut fmt::Formatter<W>) -> fmt::Result {
        match self {
            Line::Decided(Verdict::Yes(count)) => write!(f, "yes,{count}"),
            Line::Decided(Verdict::No(count)) => write!(f, "no,{count}"),
            Line::Job(number) => write!(f, "{number}"),
            Line::NotRead(refusal) => write!(f, "refused,{}", refusal.number()),
            Line::NotJudged(refusal) => write!(f, "refused,{}", refusal.number()),
        }
    }
}
