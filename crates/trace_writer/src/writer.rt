ghost use Rattle.std.specs.Prelude.{◌≡◌, ℕ, ◌+◌, ◌≤◌, [], ◌∷◌, ◌++◌, length, Ok};
ghost use Rattle.trace.specs.declared.fault.Column.TheVariants.{Job, Value};
ghost use Rattle.trace.specs.Kinds.{letter};
ghost use Rattle.trace.specs.declared.kind.Kind.{Kind as AnyKind};
ghost use Rattle.trace.specs.Lines.{field_text, job_of, value_of, line_of, Within, Sayable};
ghost use Rattle.trace.specs.Traces.{AllSayable, written};
ghost use Rattle.trace_writer.specs.Writing.{over, fitted, writing, writing_all, laid, item_checked, LineReadsBack, TraceReadsBack};

use arrayvec::ArrayVec;
use itoa::Buffer;
use std::slice;
use trace::act::Act;
use trace::fault::{Column, WriteRefusal};

// How long a line can be: a letter, three numbers of ten digits, three commas and the line end.
const LONGEST_LINE: usize = 35;

// The byte that a kind's letter is written as.
// By cases: the letters stand in the code as chars, as in the reader.
fn byte_of(c: char) -> u8
    requires { (k : AnyKind) × (c ≡ letter k) }
    ensures { result ≡ c }
{
    match c {
        'O' => b'O',
        'R' => b'R',
        'W' => b'W',
        'C' => b'C',
        'A' => b'A',
        'P' => b'P',
        'T' => b'T',
        _ => unreachable(),
    }
}

// Adds a field and the byte that ends it.
fn add_field(line: &mut ArrayVec<u8, LONGEST_LINE>, field: Option<u32>, mark: u8)
    requires { length line.old.items + 11 ≤ LONGEST_LINE }
    ensures after { line.new.items ≡ line.old.items ++ (field_text field ++ mark ∷ []) }
    ensures bound { length line.new.items ≤ length line.old.items + 11 }
{
    if let Some(n) = field {
        let mut buffer = Buffer::new();
        let digits = buffer.format(n);
        line.try_extend_from_slice(digits.as_bytes()).unwrap();
    }
    line.push(mark);
}

// The line of an act, with its line end.
fn line(act: &Act) -> ArrayVec<u8, LONGEST_LINE>
    ensures value { result.items ≡ line_of act.now }
    ensures job { Within Job (job_of act.now) }
    ensures number { Within Value (value_of act.now) }
{
    let mut line = ArrayVec::new();
    line.push(byte_of(act.kind().letter()));
    line.push(b',');
    add_field(&mut line, act.job(), b',');
    add_field(&mut line, act.item(), b',');
    add_field(&mut line, act.value(), b'\n');
    line
}

// No line may name an item above the limit.
fn check_item(item: Option<u32>) -> Result<(), WriteRefusal>
    ensures { result ≡ item_checked item (Ok tt) }
{
    // By a match with a guard: it reads as the rule does.
    match item {
        Some(item) if item > Column::Item.limit() => Err(WriteRefusal::ItemAboveLimit { item }),
        _ => Ok(()),
    }
}

// A line that is longer than the room does not fit.
fn fit(size: usize, room: usize) -> Result<usize, WriteRefusal>
    ensures { result ≡ fitted room size }
{
    if size > room {
        return Err(WriteRefusal::DoesNotFit { length: size });
    }
    Ok(size)
}

// The length of the line of an act that can be written with this much room.
fn measure(act: &Act, room: usize) -> Result<usize, WriteRefusal>
    ensures answered { result ≡ writing act.now room }
    ensures sayable { (n : ℕ) → result ≡ Ok n → Sayable act.now }
{
    check_item(act.item())?;
    fit(line(act).len(), room)
}

// The length of the lines of acts that can be written with this much room.
fn measure_all(acts: &[Act], room: usize) -> Result<usize, WriteRefusal>
    ensures answered { result ≡ writing_all acts.now room }
    ensures sayable { (n : ℕ) → result ≡ Ok n → AllSayable acts.now }
    ensures within { (n : ℕ) → result ≡ Ok n → length (written acts.now) ≤ room }
{
    let mut total = 0;
    for act in acts {
        total += measure(act, room - total)?;
    }
    Ok(total)
}

// Writes the lines of acts, one behind the other, at the front of the bytes.
fn put_lines(out: &mut [u8], acts: &[Act])
    requires { length (written acts.now) ≤ length out.old }
    ensures { out.new ≡ over 0 (written acts.now) out.old }
{
    // By place: each line goes behind those before it, into bytes that are lent as one slice.
    let mut place = 0;
    for act in acts {
        let line = line(act);
        let end = place + line.len();
        out[place..end].copy_from_slice(&line);
        place = end;
    }
}

// Writes acts as a trace at the front of the lent bytes, a line each, and answers its length.
//
// Refused, with no byte changed, by the first act that cannot be written behind those before it.
pub fn write_trace(acts: &[Act], out: &mut [u8]) -> Result<usize, WriteRefusal>
    ensures answered { result ≡ writing_all acts.now (length out.old) }
    ensures after { out.new ≡ laid result (written acts.now) out.old }
    ensures reads_back { TraceReadsBack acts.now out.new result }
{
    let length = measure_all(acts, out.len())?;
    put_lines(out, acts);
    Ok(length)
}

// Writes an act as a line, with its line end, at the front of the lent bytes, and answers its length.
//
// Refused, with no byte changed, for an item that no line may name, and for a line that does not fit.
pub fn write_act(act: &Act, out: &mut [u8]) -> Result<usize, WriteRefusal>
    ensures answered { result ≡ writing act.now (length out.old) }
    ensures after { out.new ≡ laid result (line_of act.now) out.old }
    ensures reads_back { LineReadsBack act.now out.new result }
{
    write_trace(slice::from_ref(act), out)
}
