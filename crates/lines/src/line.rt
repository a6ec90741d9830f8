// The lines of a rehearsal: what is told of each answer.
ghost use Rattle.std.specs.Prelude.{◌≡◌, Some, None};
ghost use Rattle.lines.specs.Outcomes.{outcome_of};
ghost use Rattle.lines.specs.Texts.{answer_column, detail_column, answer_text, detail_text, line_text, refusal_line};

use history::answer::Answer;
use history::refusal::Refusal;
use std::fmt;
use trace::fault::ReadRefusal;

// What a line tells.
#[derive(Clone, Copy, PartialEq, Eq, Debug)]
pub enum Outcome {
    // The call was granted and answered a number: that of the opened job, or a value.
    Number(u32),
    // The call was granted and has nothing to answer.
    Done,
    // A retire wrote so many numbers.
    Count(usize),
    // A retire wrote this number.
    Retired(u32),
    // The hub refused the call.
    Refused(Refusal),
    // The trace itself was refused, and nothing of it was played.
    NotRead(ReadRefusal),
}

// A line tells what the hub answered.
// By cases, here and in the columns: one arm is one row of the table in the documents.
impl From<Result<Answer, Refusal>> for Outcome {
    ghost from_gives = { λ answer outcome. outcome ≡ outcome_of answer };

    fn from(answer: Result<Answer, Refusal>) -> Outcome {
        match answer {
            Ok(Answer::Number(number)) => Outcome::Number(number),
            Ok(Answer::Done) => Outcome::Done,
            Ok(Answer::Count(count)) => Outcome::Count(count),
            Err(refusal) => Outcome::Refused(refusal),
        }
    }
}

// A line of a rehearsal: the line of the trace that it belongs to, and what it tells.
#[derive(Clone, Copy, PartialEq, Eq, Debug)]
pub struct Line {
    pub number: usize,
    pub outcome: Outcome,
}

// The line that tells why a trace was not read. It has the number of the line that was refused, or 0 where
// the whole input was. No `From`: this name says what the line tells.
pub fn not_read(refusal: ReadRefusal) -> Line
    ensures { result ≡ refusal_line refusal }
{
    let number = match refusal {
        ReadRefusal::Line(fault) => fault.place.line,
        ReadRefusal::Full { line } => line,
    };
    Line {
        number,
        outcome: Outcome::NotRead(refusal),
    }
}

// The second column: 0 or the number of a refusal, or the mark of a retired job.
// No Option: a retired job has a mark of its own there, not nothing. A number, whoever refuses: that is what is printed.
#[derive(Clone, Copy, PartialEq, Eq, Debug)]
pub enum AnswerColumn {
    Code(u32),
    RetiredMark,
}

// The third column: a number, or nothing.
#[derive(Clone, Copy, PartialEq, Eq, Debug)]
pub struct DetailColumn {
    pub number: Option<usize>,
}

impl Outcome {
    // The second column of the line.
    pub fn answer_column(&self) -> AnswerColumn
        ensures { result ≡ answer_column self.now }
    {
        match self {
            Outcome::Number(_) | Outcome::Done | Outcome::Count(_) => AnswerColumn::Code(0),
            Outcome::Retired(_) => AnswerColumn::RetiredMark,
            Outcome::Refused(refusal) => AnswerColumn::Code(refusal.number()),
            Outcome::NotRead(refusal) => AnswerColumn::Code(refusal.number()),
        }
    }

    // The third column of the line. One arm is one row of the table of lines.
    pub fn detail_column(&self) -> DetailColumn
        ensures { result ≡ detail_column self.now }
    {
        let number = match self {
            Outcome::Number(n) => Some(*n as usize),
            Outcome::Done => None,
            Outcome::Count(n) => Some(*n),
            Outcome::Retired(job) => Some(*job as usize),
            Outcome::Refused(refusal) => refusal.holder().map(|holder| holder as usize),
            Outcome::NotRead(ReadRefusal::Line(fault)) => Some(fault.cause() as usize),
            Outcome::NotRead(ReadRefusal::Full { .. }) => None,
        };
        DetailColumn { number }
    }
}

impl fmt::Display for AnswerColumn {
    ghost output = { λ a. Some (answer_text a) };

    fn fmt<W: fmt::Write>(&self, f: &mut fmt::Formatter<W>) -> fmt::Result {
        match self {
            AnswerColumn::Code(n) => write!(f, "{n}"),
            AnswerColumn::RetiredMark => write!(f, "T"),
        }
    }
}

impl fmt::Display for DetailColumn {
    ghost output = { λ d. Some (detail_text d) };

    fn fmt<W: fmt::Write>(&self, f: &mut fmt::Formatter<W>) -> fmt::Result {
        match self.number {
            Some(n) => write!(f, "{n}"),
            // Nothing is written; `map_or` with a closure that writes is no plainer.
            None => Ok(()),
        }
    }
}

impl fmt::Display for Line {
    ghost output = { λ l. Some (line_text l) };

    fn fmt<W: fmt::Write>(&self, f: &mut fmt::Formatter<W>) -> fmt::Result {
        let number = self.number;
        let answer = self.outcome.answer_column();
        let detail = self.outcome.detail_column();
        write!(f, "{number},{answer},{detail}")
    }
}
