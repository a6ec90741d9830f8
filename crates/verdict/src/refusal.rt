ghost use Rattle.std.specs.Prelude.{◌≡◌};
ghost use Rattle.verdict.specs.Refusals.{refusal_number};

// Why a list of steps is not judged.
#[derive(Clone, Copy, PartialEq, Eq, Debug)]
pub enum JudgeRefusal {
    // The step at this index opens a number again, or it is of a job that is not open there.
    OutOfTurn { index: usize },
    // A 65th job is opened.
    TooManyJobs,
    // The list of numbers has fewer places than jobs were opened.
    ListTooShort,
}

impl JudgeRefusal {
    // The number by which a refusal is known outside the program. By cases, as the documents fix them.
    pub fn number(&self) -> u32
        ensures { result ≡ refusal_number self.now }
    {
        match self {
            JudgeRefusal::OutOfTurn { index: _ } => 10,
            JudgeRefusal::TooManyJobs => 11,
            JudgeRefusal::ListTooShort => 12,
        }
    }
}
