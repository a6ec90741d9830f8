// One step, played on a hub.
ghost use Rattle.std.specs.Prelude.{◌≡◌, [], ◌∷◌, ◌++◌, OnOk};
ghost use Rattle.hub.specs.Standing.{machine_of};
ghost use Rattle.rehearsal.specs.Playing.{retired_lines, Answered};

use history::answer::Answer;
use hub::Hub;
use lines::line::{Line, Outcome};
use std::alloc::AllocError;
use store::Store;
use trace::act::Step;

// How many places a retire is lent.
const PLACES: usize = 32;

// Adds a line for each retired job.
fn tell_retired(lines: &mut Vec<Line>, number: usize, jobs: &[u32]) -> Result<(), AllocError>
    ensures { OnOk result (lines.new.items ≡ lines.old.items ++ retired_lines number jobs.now) }
{
    lines.extend(
        jobs.iter().map(|job| Line {
            number,
            outcome: Outcome::Retired(*job),
        }),
    )
}

// Makes the call of a step, and tells the answer; below it stand the numbers that a retire wrote to the
// front of its list.
pub(crate) fn take_turn<S: Store>(
    hub: &mut Hub<S>,
    step: &Step,
    lines: &mut Vec<Line>,
) -> Result<(), AllocError>
    ensures { OnOk result (Answered (machine_of S.Store hub.old) step.now lines.old.items (machine_of S.Store hub.new) lines.new.items) }
{
    let mut list = [0; PLACES];
    let answer = hub.take(step.act, &mut list);
    lines.push(Line {
        number: step.line,
        outcome: answer.into(),
    })?;
    match answer {
        Ok(Answer::Count(count)) => tell_retired(lines, step.line, &list[..count]),
        _ => Ok(()),
    }
}
