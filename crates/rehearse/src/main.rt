// Plays the trace on standard input on a hub, and prints what the hub answered, line by line.
#![tactic(auto)]

ghost use Rattle.std.specs.Prelude.{IfOk, string_bytes};
ghost use Rattle.rehearse.specs.Prints.{Prints};

use console::input::read_front;
use console::sheet::write_sheet;
use rehearsal::play::rehearse_input;
use std::alloc::{AllocError, Global};
use std::io;
use trace_reader::reader::LONGEST_INPUT;

// What is printed for an input.
fn answer(heap: Global, bytes: &[u8]) -> Result<String, AllocError>
    ensures { IfOk result (λ text. Prints bytes.now (string_bytes text)) }
{
    let lines = rehearse_input(heap, bytes)?;
    write_sheet(heap, "line,answer,detail", &lines)
}

// One byte more than the longest input tells that an input is too long. Each program has its own `main`: a
// shared one would be a public function of which no contract can speak.
fn main(rt: HostRuntime) -> io::Result<()> {
    let bytes = read_front(rt.alloc(), rt.stdin(), LONGEST_INPUT + 1)?;
    let text = answer(rt.alloc(), &bytes)?;
    rt.print(text)
}
