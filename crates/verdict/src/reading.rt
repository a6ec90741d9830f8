// The steps of a trace, one after another.
ghost use Rattle.std.specs.Prelude.{◌≡◌, ℕ, List, [], ◌∷◌, ◌++◌, length};
ghost use Rattle.graph.specs.Paths.{Distinct};
ghost use Rattle.history.specs.Conflicts.{Access as Accessed, accesses};
ghost use Rattle.trace.specs.declared.act.Act.TheVariants.{Open, Commit, Abort};
ghost use Rattle.verdict.specs.Ledgers.{Keeps, ReadsSteps, Takes, UsersOf};
ghost use Rattle.verdict.specs.Turns.{acts};
ghost use Rattle.verdict.specs.Users.{act_of};

use crate::ledger::Ledger;
use crate::refusal::JudgeRefusal;
use crate::users::{Access, Users};
use trace::act::{Act, Step};

// Notes an act that uses the item. By cases, each with a look-up of its own: where only the writers are asked for, as
// before a read, the compiler then leaves out the look-ups of the readers.
#[inline(always)]
fn note_use(users: &mut Users, ledger: &Ledger, act: &Act, item: u32)
    requires { Distinct ledger.now.numbers.items }
    ensures { (s : List Accessed) → UsersOf s ledger.now.numbers.items item users.old → UsersOf (s ++ accesses (act.now ∷ [])) ledger.now.numbers.items item users.new }
{
    match act {
        Act::Read {
            job,
            item: used,
            ..
        } => {
            if *used == item {
                if let Some(node) = ledger.find(*job) {
                    users.note(Access::Read, node);
                }
            }
        }
        Act::Write {
            job,
            item: used,
            ..
        } => {
            if *used == item {
                if let Some(node) = ledger.find(*job) {
                    users.note(Access::Write, node);
                }
            }
        }
        Act::Open { .. }
        | Act::Commit { .. }
        | Act::Abort { .. }
        | Act::Peek { .. }
        | Act::Retire => {}
    }
}

// The users of an item among these steps.
#[inline(always)]
fn users_of(ledger: &Ledger, before: &[Step], item: u32) -> Users
    requires { Distinct ledger.now.numbers.items }
    ensures { UsersOf (accesses (acts before.now)) ledger.now.numbers.items item result }
{
    let mut users = Users::none();
    for step in before {
        note_use(&mut users, ledger, &step.act, item);
    }
    users
}

// The users of an item among the steps before: those that the ledger has, or where it does not have them, by a look at
// those steps.
#[inline(always)]
fn users(ledger: &Ledger, before: &[Step], item: u32) -> Users
    requires { Keeps (acts before.now) ledger.now }
    ensures { UsersOf (accesses (acts before.now)) ledger.now.numbers.items item result }
{
    if item < 64 {
        ledger.users[item as usize]
    } else {
        users_of(ledger, before, item)
    }
}

// Takes an access of the item by the job, after the steps before. The node of an open job is asked for in place, here
// and below: with a function between that answers a place or a refusal the judge was slower.
// Inlined, with what it calls: a read and a write each know which access they are.
#[inline(always)]
fn access(
    ledger: &mut Ledger,
    before: &[Step],
    access: Access,
    job: u32,
    item: u32,
) -> Result<(), JudgeRefusal>
    requires { Keeps (acts before.now) ledger.old }
    ensures { (value : ℕ) → Takes (acts before.now) (act_of access job item value) (length before.now) result ledger.new }
{
    let index = before.len();
    let node = ledger
        .find_open(job)
        .ok_or(JudgeRefusal::OutOfTurn { index })?;
    let users = users(ledger, before, item);
    ledger.draw(node, users.conflicting(access));
    ledger.note(access, item, node);
    Ok(())
}

// Takes the opening of a job, at the index.
#[tactic(auto, using(crate::proofs::Ledgers::found_before, crate::proofs::Ledgers::found_never, crate::proofs::Ledgers::counted))]
fn open(ledger: &mut Ledger, index: usize, job: u32) -> Result<(), JudgeRefusal>
    ensures { (H : List Act) → Keeps H ledger.old → Takes H (Open job) index result ledger.new }
{
    if ledger.find(job).is_some() {
        return Err(JudgeRefusal::OutOfTurn { index });
    }
    if ledger.numbers.is_full() {
        return Err(JudgeRefusal::TooManyJobs);
    }
    ledger.add(job);
    Ok(())
}

// Takes the commit of a job, at the index. It and the next differ in one call: one function with that call as a closure
// would need more clauses than the lines that they share.
fn commit(ledger: &mut Ledger, index: usize, job: u32) -> Result<(), JudgeRefusal>
    ensures { (H : List Act) → Keeps H ledger.old → Takes H (Commit job) index result ledger.new }
{
    let node = ledger
        .find_open(job)
        .ok_or(JudgeRefusal::OutOfTurn { index })?;
    ledger.end(node);
    Ok(())
}

// Takes the abort of a job, at the index.
fn abort(ledger: &mut Ledger, index: usize, job: u32) -> Result<(), JudgeRefusal>
    ensures { (H : List Act) → Keeps H ledger.old → Takes H (Abort job) index result ledger.new }
{
    let node = ledger
        .find_open(job)
        .ok_or(JudgeRefusal::OutOfTurn { index })?;
    ledger.strike(node);
    Ok(())
}

// Takes an act, after the steps before.
fn follow(ledger: &mut Ledger, before: &[Step], act: &Act) -> Result<(), JudgeRefusal>
    requires { Keeps (acts before.now) ledger.old }
    ensures { Takes (acts before.now) act.now (length before.now) result ledger.new }
{
    let index = before.len();
    match act {
        Act::Open { job } => open(ledger, index, *job),
        Act::Read { job, item, .. } => access(ledger, before, Access::Read, *job, *item),
        Act::Write { job, item, .. } => access(ledger, before, Access::Write, *job, *item),
        Act::Commit { job } => commit(ledger, index, *job),
        Act::Abort { job } => abort(ledger, index, *job),
        Act::Peek { .. } | Act::Retire => Ok(()),
    }
}

// The ledger of all steps, or why they are not judged.
#[tactic(auto, using(crate::proofs::Steps::read_refused, crate::proofs::Steps::read_all))]
pub(crate) fn read_steps(steps: &[Step]) -> Result<Ledger, JudgeRefusal>
    ensures { ReadsSteps (acts steps.now) result }
{
    let mut ledger = Ledger::new();
    for (index, step) in steps.iter().enumerate() {
        follow(&mut ledger, &steps[..index], &step.act)?;
    }
    Ok(ledger)
}
