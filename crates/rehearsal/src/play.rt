// All steps of a list, played on a hub.
ghost use Rattle.std.specs.Prelude.{◌≡◌, IfOk, OnOk};
ghost use Rattle.hub.specs.InMemory.{in_memory};
ghost use Rattle.rehearsal.specs.Playing.{Played, RehearsedOn, Rehearsed, RehearsedInput};

use crate::turn::take_turn;
use console::input::read_steps;
use hub::Hub;
use lines::line::{Line, not_read};
use std::alloc::{AllocError, Global};
use store::{MemoryStore, Store};
use trace::act::Step;

// Plays the steps on a hub, one after another, and adds their lines.
fn play(hub: &mut Hub<MemoryStore>, steps: &[Step], lines: &mut Vec<Line>) -> Result<(), AllocError>
    ensures { OnOk result (Played (in_memory hub.old) steps.now lines.old.items (in_memory hub.new) lines.new.items) }
{
    for step in steps {
        take_turn(hub, step, lines)?;
    }
    Ok(())
}

// Plays the steps on a hub over these values, whose first job gets this number, and answers their lines.
fn rehearse_on(
    heap: Global,
    values: &mut [u32],
    first: u32,
    steps: &[Step],
) -> Result<Vec<Line>, AllocError>
    ensures { IfOk result (λ lines. RehearsedOn first values.old steps.now lines.items) }
{
    let mut hub = Hub::new(MemoryStore::new(values), first);
    let mut lines = Vec::new(heap);
    play(&mut hub, steps, &mut lines)?;
    Ok(lines)
}

// Plays the steps on a hub over 64 items that hold 0, whose first job gets the number 1, and answers the
// lines that tell what the hub answered. What a step tells of an answer is ignored: an open's number and
// the value of a read or a peek. A retire is lent 32 places. Refused only for want of memory.
//
// The run that was made keeps what the hub promises of every run of it (`serializable` of `RehearsedOn`).
pub fn rehearse(heap: Global, steps: &[Step]) -> Result<Vec<Line>, AllocError>
    ensures { IfOk result (λ lines. Rehearsed steps.now lines.items) }
{
    let mut values = [0; 64];
    rehearse_on(heap, &mut values, 1, steps)
}

// Plays the trace in an input, as `rehearse` plays its steps. Where the reader refuses the trace nothing is
// played, and one line tells why.
pub fn rehearse_input(heap: Global, bytes: &[u8]) -> Result<Vec<Line>, AllocError>
    ensures { IfOk result (λ lines. RehearsedInput bytes.now lines.items) }
{
    match read_steps(heap, bytes)? {
        Ok(steps) => rehearse(heap, &steps),
        Err(refusal) => Ok(vec![in heap; not_read(refusal)]?),
    }
}
