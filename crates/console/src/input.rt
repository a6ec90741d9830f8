// The bytes of an input, and the steps of the trace in them.
ghost use Rattle.std.specs.Prelude.{◌≡◌, ◌≤◌, IfOk, vec_len};
ghost use Rattle.console.specs.Inputs.{IsTrace};

use std::alloc::{AllocError, Global};
use std::io;
use std::io::Read;
use trace::act::{Act, Step};
use trace::fault::ReadRefusal;
use trace_reader::reader::read_input;

// For how many steps there is place.
const MOST_STEPS: usize = 1024;

// Reads an input to its end, but no more than this many bytes of it, so that an endless one is read too.
pub fn read_front<R: Read + Drop>(heap: Global, input: R, most: usize) -> io::Result<Vec<u8>>
    ensures { IfOk result (λ bytes. vec_len bytes ≤ most) }
{
    let mut bytes = Vec::new(heap);
    input.take(most as u64).read_to_end(&mut bytes)?;
    // `take` keeps to its limit, but no contract of it says so.
    bytes.truncate(most);
    Ok(bytes)
}

// The steps of the trace in an input, read into the list, or why it is refused.
fn read_into(mut steps: Vec<Step>, bytes: &[u8]) -> Result<Vec<Step>, ReadRefusal>
    requires { vec_len steps ≡ 1024 }
    ensures { IsTrace bytes.now result }
{
    let count = read_input(bytes, &mut steps)?;
    steps.truncate(count);
    Ok(steps)
}

// The steps of the trace in an input, at most 1,024, or why it is refused. It fails only for want of
// memory.
pub fn read_steps(heap: Global, bytes: &[u8]) -> Result<Result<Vec<Step>, ReadRefusal>, AllocError>
    ensures { IfOk result (λ trace. IsTrace bytes.now trace) }
{
    // Place for all of them, cut to the count later: the reader fills a list that is lent to it.
    let unread = Step {
        line: 0,
        act: Act::Retire,
    };
    let steps = vec![in heap; unread; MOST_STEPS]?;
    Ok(read_into(steps, bytes))
}
