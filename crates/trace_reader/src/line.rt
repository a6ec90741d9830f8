ghost use Rattle.std.specs.Prelude.{◌≡◌, ◌==◌, length, position};
ghost use Rattle.trace.specs.Kinds.{kind_of};
ghost use Rattle.trace.specs.Lines.{job_alone, all_three, act_of, act_on, in_line};
ghost use Rattle.trace.specs.Pieces.{before, behind, parted};
ghost use Rattle.trace.specs.Traces.{in_place, first_line};

use crate::number::number;
use trace::act::Act;
use trace::fault::{Column, FieldFault, LineCause, LineFault, LinePlace};
use trace::kind::Kind;

// The place of the first separator, if there is one.
fn find(bytes: &[u8], separator: u8) -> Option<usize>
    ensures { result ≡ position (λ b. b == separator) bytes.now }
{
    bytes.iter().position(|b| *b == separator)
}

// The number of pieces that commas part.
fn count_fields(line: &[u8]) -> usize
    ensures { result ≡ length (parted 44 line.now) }
{
    line.iter().filter(|b| **b == b',').count() + 1
}

// What stands before the first comma, and what stands behind it.
fn cut(bytes: &[u8]) -> (&[u8], &[u8])
    ensures front { result.0.now ≡ before 44 bytes.now }
    ensures back { result.1.now ≡ behind 44 bytes.now }
{
    match find(bytes, b',') {
        Some(end) => (&bytes[..end], &bytes[end + 1..]),
        None => (bytes, &[]),
    }
}

// The kind that a letter stands for.
// By cases: the letters stand in the code as chars, each with its kind beside it.
fn kind_of(c: char) -> Option<Kind>
    ensures { result ≡ kind_of c }
{
    match c {
        'O' => Some(Kind::Open),
        'R' => Some(Kind::Read),
        'W' => Some(Kind::Write),
        'C' => Some(Kind::Commit),
        'A' => Some(Kind::Abort),
        'P' => Some(Kind::Peek),
        'T' => Some(Kind::Retire),
        _ => None,
    }
}

// The number of a field that has to be filled.
fn filled(column: Column, field: &[u8]) -> Result<u32, FieldFault>
    ensures { result ≡ Rattle.trace.specs.Lines.filled column field.now }
{
    if field.is_empty() {
        return Err(FieldFault::Empty { column });
    }
    Ok(number(field, column.limit()).map_err(|fault| (column, fault))?)
}

// A field that has to be empty.
fn vacant(column: Column, field: &[u8]) -> Result<(), FieldFault>
    ensures { result ≡ Rattle.trace.specs.Lines.vacant column field.now }
{
    if field.is_empty() {
        Ok(())
    } else {
        Err(FieldFault::Filled { column })
    }
}

// The fields behind the kind letter.
#[derive(Clone, Copy)]
struct Fields<'a> {
    job: &'a [u8],
    item: &'a [u8],
    value: &'a [u8],
}

impl Fields<'_> {
    // The job, where nothing else is filled.
    fn job_alone(&self) -> Result<u32, FieldFault>
        ensures { result ≡ job_alone self.now.job.now self.now.item.now self.now.value.now }
    {
        let job = filled(Column::Job, self.job)?;
        vacant(Column::Item, self.item)?;
        vacant(Column::Value, self.value)?;
        Ok(job)
    }

    // The job, the item and the value, where all three are filled.
    fn all_three(&self) -> Result<(u32, u32, u32), FieldFault>
        ensures { result ≡ all_three self.now.job.now self.now.item.now self.now.value.now }
    {
        let job = filled(Column::Job, self.job)?;
        let item = filled(Column::Item, self.item)?;
        let value = filled(Column::Value, self.value)?;
        Ok((job, item, value))
    }

    // The act of a kind. Two shapes serve five kinds. The other two kinds are read where they are named.
    fn act_of(&self, kind: Kind) -> Result<Act, FieldFault>
        ensures { result ≡ act_of kind self.now.job.now self.now.item.now self.now.value.now }
    {
        match kind {
            Kind::Open => self.job_alone().map(|job| Act::Open { job }),
            Kind::Read => self
                .all_three()
                .map(|(job, item, value)| Act::Read { job, item, value }),
            Kind::Write => self
                .all_three()
                .map(|(job, item, value)| Act::Write { job, item, value }),
            Kind::Commit => self.job_alone().map(|job| Act::Commit { job }),
            Kind::Abort => self.job_alone().map(|job| Act::Abort { job }),
            Kind::Peek => {
                vacant(Column::Job, self.job)?;
                let item = filled(Column::Item, self.item)?;
                let value = filled(Column::Value, self.value)?;
                Ok(Act::Peek { item, value })
            }
            Kind::Retire => {
                vacant(Column::Job, self.job)?;
                vacant(Column::Item, self.item)?;
                vacant(Column::Value, self.value)?;
                Ok(Act::Retire)
            }
        }
    }
}

// The act of a line that has four fields.
// By a slice pattern, once the fields are counted: the letter, its comma and the rest.
fn read_fields(line: &[u8]) -> Result<Act, FieldFault>
    requires { length (parted 44 line.now) ≡ 4 }
    ensures { in_line result ≡ act_on line.now }
{
    let [letter, b',', rest @ ..] = line else {
        return Err(FieldFault::NoKind);
    };
    let kind = kind_of(char::from(*letter)).ok_or(FieldFault::NoKind)?;
    let (job, rest) = cut(rest);
    let (item, value) = cut(rest);
    Fields { job, item, value }.act_of(kind)
}

// The act of a line, its line end taken off.
fn read_line(line: &[u8], place: LinePlace) -> Result<Act, LineFault>
    ensures { result ≡ in_place place (act_on line.now) }
{
    match count_fields(line) {
        4 => Ok(read_fields(line).map_err(|fault| (place, fault))?),
        0..4 => Err(LineFault {
            place,
            what: LineCause::FewFields,
        }),
        _ => Err(LineFault {
            place,
            what: LineCause::ManyFields,
        }),
    }
}

// The act of the first line of the bytes, and its length with its line end.
pub fn first_line(bytes: &[u8], place: LinePlace) -> Result<(Act, usize), LineFault>
    ensures { result ≡ first_line place bytes.now }
{
    let end = find(bytes, b'\n').ok_or(LineFault {
        place,
        what: LineCause::Unended,
    })?;
    let act = read_line(&bytes[..end], place)?;
    Ok((act, end + 1))
}
