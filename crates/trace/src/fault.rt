ghost use Rattle.std.specs.Prelude.{◌≡◌};
ghost use Rattle.trace.specs.Limits.{limit};
ghost use Rattle.trace.specs.Refusals.{cause_of, column_number, field_of, read_number, write_number};
ghost use Rattle.trace.specs.declared.fault.FieldFault.TheVariants.{Number};
ghost use Rattle.trace.specs.declared.fault.LineCause.TheVariants.{Field};
ghost use Rattle.trace.specs.declared.fault.ReadRefusal.TheVariants.{Line};

// What is wrong with a field that is filled and has to be a number.
#[derive(Clone, Copy, PartialEq, Eq, Debug)]
pub enum NumberFault {
    AboveLimit,
    NotANumber,
}

// The fields behind the kind letter.
#[derive(Clone, Copy, PartialEq, Eq, Debug)]
pub enum Column {
    Job,
    Item,
    Value,
}

impl Column {
    // The largest number that the field may hold. By cases, as the documents have it; so are the numbers below.
    pub fn limit(self) -> u32
        ensures { result ≡ limit self }
    {
        match self {
            Column::Job | Column::Value => u32::MAX,
            Column::Item => 63,
        }
    }

    // The number of the field, of which the kind letter is the first.
    fn number(self) -> u32
        ensures { result ≡ column_number self }
    {
        match self {
            Column::Job => 2,
            Column::Item => 3,
            Column::Value => 4,
        }
    }
}

// The first field at fault in a line of four: which one, and what is wrong with it.
#[derive(Clone, Copy, PartialEq, Eq, Debug)]
pub enum FieldFault {
    NoKind,
    Number { column: Column, fault: NumberFault },
    Empty { column: Column },
    Filled { column: Column },
}

// The fault of a number goes up with its field.
impl From<(Column, NumberFault)> for FieldFault {
    ghost from_gives = { λ e r. r ≡ Number e.0 e.1 };

    fn from(e: (Column, NumberFault)) -> FieldFault {
        FieldFault::Number {
            column: e.0,
            fault: e.1,
        }
    }
}

// What is wrong with a line.
#[derive(Clone, Copy, PartialEq, Eq, Debug)]
pub enum LineCause {
    Unended,
    FewFields,
    ManyFields,
    Field(FieldFault),
}

// Where a line stands: its number, from 1, and the place of its first byte, from 0.
#[derive(Clone, Copy, PartialEq, Eq, Debug)]
pub struct LinePlace {
    pub line: usize,
    pub start: usize,
}

// A line at fault: where it stands, and what is wrong with it.
#[derive(Clone, Copy, PartialEq, Eq, Debug)]
pub struct LineFault {
    pub place: LinePlace,
    pub what: LineCause,
}

impl LineFault {
    // The number of the cause, 1 to 8. By a method, as all numbers here: its name says which number it is.
    pub fn cause(&self) -> u32
        ensures { result ≡ cause_of self.now.what }
    {
        match self.what {
            LineCause::Unended => 1,
            LineCause::FewFields => 2,
            LineCause::ManyFields => 3,
            LineCause::Field(FieldFault::NoKind) => 4,
            LineCause::Field(FieldFault::Number { fault, .. }) => match fault {
                NumberFault::AboveLimit => 5,
                NumberFault::NotANumber => 6,
            },
            LineCause::Field(FieldFault::Empty { .. }) => 7,
            LineCause::Field(FieldFault::Filled { .. }) => 8,
        }
    }

    // The field at fault, 1 to 4, or 0 where the line as a whole is: the documents fix the 0 too.
    pub fn field(&self) -> u32
        ensures { result ≡ field_of self.now.what }
    {
        match self.what {
            LineCause::Unended | LineCause::FewFields | LineCause::ManyFields => 0,
            LineCause::Field(FieldFault::NoKind) => 1,
            LineCause::Field(
                FieldFault::Number { column, .. }
                | FieldFault::Empty { column }
                | FieldFault::Filled { column },
            ) => column.number(),
        }
    }
}

// The fault of a field goes up with the place of its line.
impl From<(LinePlace, FieldFault)> for LineFault {
    ghost from_gives = { λ e r. r ≡ record { place = e.0; what = Field e.1 } };

    fn from(e: (LinePlace, FieldFault)) -> LineFault {
        LineFault {
            place: e.0,
            what: LineCause::Field(e.1),
        }
    }
}

// Why a trace is not read to its end: a line at fault, or a good line for which the lent list has no
// place left. An enum of its own, as the writer's below: each case is a refusal, and none means nothing.
#[derive(Clone, Copy, PartialEq, Eq, Debug)]
pub enum ReadRefusal {
    Line(LineFault),
    Full { line: usize },
}

impl ReadRefusal {
    // The number of the refusal.
    pub fn number(&self) -> u32
        ensures { result ≡ read_number self.now }
    {
        match self {
            ReadRefusal::Line(_) => 9,
            ReadRefusal::Full { .. } => 13,
        }
    }
}

// A line at fault refuses the trace.
impl From<LineFault> for ReadRefusal {
    ghost from_gives = { λ e r. r ≡ Line e };

    fn from(e: LineFault) -> ReadRefusal {
        ReadRefusal::Line(e)
    }
}

// Why an act is not written: no line may name its item, or its line does not fit the lent bytes.
#[derive(Clone, Copy, PartialEq, Eq, Debug)]
pub enum WriteRefusal {
    ItemAboveLimit { item: u32 },
    DoesNotFit { length: usize },
}

impl WriteRefusal {
    // The number of the refusal.
    pub fn number(&self) -> u32
        ensures { result ≡ write_number self.now }
    {
        match self {
            WriteRefusal::ItemAboveLimit { .. } => 5,
            WriteRefusal::DoesNotFit { .. } => 14,
        }
    }
}
