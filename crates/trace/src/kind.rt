ghost use Rattle.std.specs.Prelude.{◌≡◌};
ghost use Rattle.trace.specs.Kinds.{letter};

// What an act does, without the numbers that it carries.
#[derive(Clone, Copy, PartialEq, Eq, Debug)]
pub enum Kind {
    Open,
    Read,
    Write,
    Commit,
    Abort,
    Peek,
    Retire,
}

impl Kind {
    // The letter that a line begins with. By cases: the documents fix the letters.
    pub fn letter(self) -> char
        ensures { result ≡ letter self }
    {
        match self {
            Kind::Open => 'O',
            Kind::Read => 'R',
            Kind::Write => 'W',
            Kind::Commit => 'C',
            Kind::Abort => 'A',
            Kind::Peek => 'P',
            Kind::Retire => 'T',
        }
    }
}
