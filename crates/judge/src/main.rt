// Judges the trace on standard input: could its jobs have run one after another? Prints the verdict, and
// the order or the cycle that shows it.
#![tactic(auto)]

ghost use Rattle.std.specs.Prelude.{IfOk, string_bytes};
ghost use Rattle.judge.specs.Prints.{Prints};

use crate::list::judge_input;
use console::input::read_front;
use console::sheet::write_sheet;
use std::alloc::{AllocError, Global};
use std::io;
use trace_reader::reader::LONGEST_INPUT;

mod line;
mod list;

// What is printed for an input.
fn answer(heap: Global, bytes: &[u8]) -> Result<String, AllocError>
    ensures { IfOk result (λ text. Prints bytes.now (string_bytes text)) }
{
    let lines = judge_input(heap, bytes)?;
    write_sheet(heap, "verdict,count", &lines)
}

// One byte more than the longest input tells that an input is too long. Each program has its own `main`: a
// shared one would be a public function of which no contract can speak.
fn main(rt: HostRuntime) -> io::Result<()> {
    let bytes = read_front(rt.alloc(), rt.stdin(), LONGEST_INPUT + 1)?;
    let text = answer(rt.alloc(), &bytes)?;
    rt.print(text)
}
