// A list of requests, judged.
ghost use Rattle.std.specs.Prelude.{◌≡◌, ◌≤◌, length};
ghost use Rattle.entry.specs.Judging.{reply, Decodes, JudgesAll};

use crate::request::{Reply, Request};
use trace::act::{Act, Step};
use verdict::judge::{Verdict, judge};
use verdict::refusal::JudgeRefusal;

// For how many steps there is place.
const MOST_STEPS: usize = 1024;

// Puts the acts of the requests into the list, up to the first of no known kind, and answers how many.
fn decode(requests: &[Request], steps: &mut [Step]) -> usize
    requires { length requests.now ≤ length steps.old }
    ensures { Decodes requests.now result steps.new }
{
    for (at, request) in requests.iter().enumerate() {
        let Some(act) = request.act() else {
            return at;
        };
        // By index: of the places that a zip with `iter_mut` writes, an invariant can say nothing.
        steps[at] = Step { line: at, act };
    }
    requests.len()
}

// The reply to what the judge answers: with a step out of turn goes its index.
impl From<Result<Verdict, JudgeRefusal>> for Reply {
    ghost from_gives = { λ answer told. told ≡ reply answer };

    fn from(answer: Result<Verdict, JudgeRefusal>) -> Reply {
        match answer {
            Ok(Verdict::Yes(number)) => Reply { code: 0, number },
            Ok(Verdict::No(number)) => Reply { code: 1, number },
            Err(refusal) => Reply {
                code: refusal.number(),
                number: match refusal {
                    JudgeRefusal::OutOfTurn { index } => index,
                    _ => 0,
                },
            },
        }
    }
}

// Judges the acts of the requests: 0 for yes, and the list of numbers begins with an order; 1 for no, and it
// begins with a cycle; with how many numbers these are. Else the number of the judge's refusal, with the index of
// a step out of turn; 9 for a request of no known kind, with its index; 13 for more than 1,024 requests, with
// 1,024: the list then stays as it was.
#[unsafe(no_mangle)]
pub extern "C" fn sathkeif_judge(requests: &[Request], numbers: &mut [u32]) -> Reply
    ensures { JudgesAll requests.now numbers.old result numbers.new }
{
    if requests.len() > MOST_STEPS {
        return Reply {
            code: 13,
            number: MOST_STEPS,
        };
    }
    let unread = Step {
        line: 0,
        act: Act::Retire,
    };
    // No ArrayVec: a list of that kind is filled with defaults first, and an act has none.
    let mut steps = [unread; MOST_STEPS];
    let count = decode(requests, &mut steps);
    if count < requests.len() {
        return Reply {
            code: 9,
            number: count,
        };
    }
    judge(&steps[..count], numbers).into()
}
