ghost use Rattle.std.specs.Prelude.{◌≡◌, length};
ghost use Rattle.trace.specs.Traces.{reading_of, reading_of_input, answer, list_after};
ghost use Rattle.trace_reader.specs.Laws.{FirstBadLineDecides, ReadsWhatWasWritten, WritesBack};

use crate::line::first_line;
use trace::act::Step;
use trace::fault::{LinePlace, ReadRefusal};

// Reads every line of a trace into the lent list, and answers how many there are.
//
// The first line that is at fault, or for which the list has no place left, refuses the trace. The list
// then holds the steps of the lines before it. Its other places stay as they were.
pub fn read_trace(bytes: &[u8], steps: &mut [Step]) -> Result<usize, ReadRefusal>
    ensures answered { result ≡ answer (reading_of bytes.now (length steps.old)) }
    ensures listed { steps.new ≡ list_after steps.old (reading_of bytes.now (length steps.old)) }
    ensures first_bad_line_decides { FirstBadLineDecides bytes.now steps.old steps.new result }
    ensures reads_what_was_written { ReadsWhatWasWritten bytes.now steps.old steps.new result }
    ensures writes_back { WritesBack bytes.now steps.new result }
{
    // By place: a fault tells where its line starts, which an iterator over lines does not say.
    let mut count = 0;
    let mut start = 0;
    while start < bytes.len() {
        let line = count + 1;
        let (act, length) = first_line(&bytes[start..], LinePlace { line, start })?;
        if count == steps.len() {
            return Err(ReadRefusal::Full { line });
        }
        steps[count] = Step { line, act };
        count += 1;
        start += length;
    }
    Ok(count)
}

// The longest input that is read, in bytes.
pub const LONGEST_INPUT: usize = 32768;

// Reads a whole input as `read_trace` does, unless it is too long to be looked at. It is then refused as
// if the list were full before its first line, which has the number 0, and the list stays as it was.
pub fn read_input(bytes: &[u8], steps: &mut [Step]) -> Result<usize, ReadRefusal>
    ensures answered { result ≡ answer (reading_of_input bytes.now (length steps.old)) }
    ensures listed { steps.new ≡ list_after steps.old (reading_of_input bytes.now (length steps.old)) }
{
    if bytes.len() > LONGEST_INPUT {
        return Err(ReadRefusal::Full { line: 0 });
    }
    read_trace(bytes, steps)
}
