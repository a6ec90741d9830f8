// The lines that tell a judgement.
ghost use Rattle.std.specs.Prelude.{◌≡◌, ◌≤◌, length, IfOk};
ghost use Rattle.judge.specs.Prints.{verdict_count, decided_lines, Judged, JudgedInput};

use crate::line::Line;
use console::input::read_steps;
use std::alloc::{AllocError, Global};
use std::iter;
use trace::act::Step;
use verdict::judge::{Verdict, judge};

// How many numbers the list takes.
const PLACES: usize = 64;

// How many numbers a verdict comes with. By a match: each answer has a name of its own and its own count.
fn count(verdict: Verdict) -> usize
    ensures { result ≡ verdict_count verdict }
{
    match verdict {
        Verdict::Yes(count) | Verdict::No(count) => count,
    }
}

// The lines of a verdict and its numbers.
fn decided(heap: Global, verdict: Verdict, numbers: &[u32]) -> Result<Vec<Line>, AllocError>
    requires { verdict_count verdict ≤ length numbers.now }
    ensures { IfOk result (λ lines. lines.items ≡ decided_lines verdict numbers.now) }
{
    let jobs = numbers[..count(verdict)].iter();
    iter::once(Line::Decided(verdict))
        .chain(jobs.map(|job| Line::Job(*job)))
        .collect(heap)
}

// Judges the steps, and tells the verdict or the refusal.
fn judge_steps(heap: Global, steps: &[Step]) -> Result<Vec<Line>, AllocError>
    ensures { IfOk result (λ lines. Judged steps.now lines.items) }
{
    let mut numbers = [0; PLACES];
    match judge(steps, &mut numbers) {
        Ok(verdict) => decided(heap, verdict, &numbers),
        Err(refusal) => Ok(vec![in heap; Line::NotJudged(refusal)]?),
    }
}

// Judges the trace in an input, and tells the verdict, or the refusal by the reader or the judge.
pub(crate) fn judge_input(heap: Global, bytes: &[u8]) -> Result<Vec<Line>, AllocError>
    ensures { IfOk result (λ lines. JudgedInput bytes.now lines.items) }
{
    match read_steps(heap, bytes)? {
        Ok(steps) => judge_steps(heap, &steps),
        Err(refusal) => Ok(vec![in heap; Line::NotRead(refusal)]?),
    }
}
