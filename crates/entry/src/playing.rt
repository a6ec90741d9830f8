// A list of requests, made on a hub.
ghost use Rattle.std.specs.Prelude.{◌≡◌, ◌≤◌, length};
ghost use Rattle.hub.specs.InMemory.{in_memory};
ghost use Rattle.entry.specs.Playing.{reply_of, Plays, PlaysAll};

use crate::request::{Reply, Request};
use history::answer::Answer;
use history::refusal::Refusal;
use hub::Hub;
use store::MemoryStore;

// How many places a retire is lent.
const PLACES: usize = 32;

// The reply to what the hub answers: with a refusal goes the number of the job that holds the item, or 0.
impl From<Result<Answer, Refusal>> for Reply {
    ghost from_gives = { λ answer reply. reply ≡ reply_of answer };

    fn from(answer: Result<Answer, Refusal>) -> Reply {
        match answer {
            Ok(Answer::Number(number)) => Reply {
                code: 0,
                number: number as usize,
            },
            Ok(Answer::Done) => Reply { code: 0, number: 0 },
            Ok(Answer::Count(number)) => Reply { code: 0, number },
            Err(refusal) => Reply {
                code: refusal.number(),
                number: refusal.holder().unwrap_or(0) as usize,
            },
        }
    }
}

// Makes the requests on the hub, one after another, up to the first of no known kind, and answers how many.
// Every retire is lent the same 32 places.
fn play(hub: &mut Hub<MemoryStore>, requests: &[Request], replies: &mut [Reply]) -> usize
    requires { length requests.now ≤ length replies.old }
    ensures { Plays (in_memory hub.old) requests.now replies.old result (in_memory hub.new) replies.new }
{
    let mut list = [0; PLACES];
    for (at, request) in requests.iter().enumerate() {
        let Some(act) = request.act() else {
            return at;
        };
        // By index: of the places that a zip with `iter_mut` writes, an invariant can say nothing.
        replies[at] = hub.take(act, &mut list).into();
    }
    requests.len()
}

// Makes the requests, one after another, on a new hub over 64 items that hold 0, whose first job gets the given
// number; up to the first of no known kind, and as many as there are places for replies. A retire is lent 32
// places. Writes the replies to the front of their list, and answers how many.
#[unsafe(no_mangle)]
pub extern "C" fn sathkeif_play(first: u32, requests: &[Request], replies: &mut [Reply]) -> usize
    ensures { PlaysAll first requests.now replies.old result replies.new }
{
    let mut values = [0; 64];
    let mut hub = Hub::new(MemoryStore::new(&mut values), first);
    let most = requests.len().min(replies.len());
    play(&mut hub, &requests[..most], replies)
}
