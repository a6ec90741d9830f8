// The verdict on a list of steps, with the order or the cycle that shows it.
ghost use Rattle.std.specs.Prelude.{◌≡◌, ◌↔◌, ℕ, ◌<◌, ◌≤◌, true, List, length, take, drop, Some, None, slice_index, IsTrue};
ghost use Rattle.graph.specs.Lists.{listed};
ghost use Rattle.graph.specs.Nodes.{has};
ghost use Rattle.graph.specs.Paths.{◌∈◌};
ghost use Rattle.history.specs.Acts.{not_aborted};
ghost use Rattle.trace.specs.declared.act.Act.{Act};
ghost use Rattle.verdict.specs.Ledgers.{Keeps, count};
ghost use Rattle.verdict.specs.Shown.{NodeCycle, NodeOrder, Ready, numbered};
ghost use Rattle.verdict.specs.Turns.{acts};
ghost use Rattle.verdict.specs.Verdicts.{Decides, Judges};

use crate::ledger::Ledger;
use crate::reading::read_steps;
use crate::refusal::JudgeRefusal;
use graph::cycle::find_cycle;
use graph::list::NodeList;
use graph::nodes::{NodeSet, is_empty, without};
use graph::order::topological_order;
use trace::act::Step;

// What the judge answers: how many numbers it put into the list. An enum of its own: each variant says what the list
// then has.
#[derive(Clone, Copy, PartialEq, Eq, Debug)]
pub enum Verdict {
    // The jobs could have run one after another: the list has an order of them.
    Yes(usize),
    // They could not: the list has a cycle.
    No(usize),
}

// The nodes of a list, first to last.
fn nodes_of(list: &NodeList) -> &[usize]
    ensures { result.now ≡ listed list.now }
{
    list.nodes.get(..list.count).unwrap_or(&list.nodes)
}

// Puts the numbers of the jobs at these nodes into the list.
fn put(ledger: &Ledger, chosen: &NodeList, numbers: &mut [u32])
    requires fits { length (listed chosen.now) ≤ length numbers.old }
    requires jobs { (k : ℕ) → k < length (listed chosen.now) → slice_index (listed chosen.now) k < count ledger.now }
    ensures front { take (length (listed chosen.now)) numbers.new ≡ numbered ledger.now (listed chosen.now) }
    ensures rest { drop (length (listed chosen.now)) numbers.new ≡ drop (length (listed chosen.now)) numbers.old }
{
    // By index: over `iter_mut` and `zip` the invariant would speak of the places lent and of what they become.
    for (at, node) in nodes_of(chosen).iter().enumerate() {
        numbers[at] = ledger.numbers[*node];
    }
}

// Whether every node of the set stands in the list.
#[tactic(auto, using(crate::proofs::Missing::missing_more, crate::proofs::Missing::missing_none, crate::proofs::Missing::all_there))]
fn has_all(list: &NodeList, set: NodeSet) -> bool
    ensures { IsTrue result ↔ ((n : ℕ) → has set n ≡ true → n ∈ listed list.now) }
{
    // A loop: each node is taken out of the set, and what is left is asked once.
    let mut missing = set;
    for node in nodes_of(list).iter() {
        missing = without(missing, *node);
    }
    is_empty(missing)
}

// A cycle among the jobs that count, by their nodes, if there is one.
fn cycle_of(ledger: &Ledger) -> Option<NodeList>
    ensures { NodeCycle ledger.now result }
{
    find_cycle(&ledger.into, ledger.kept)
}

// The same, where the order of the jobs that count is known: there is no cycle if it has them all.
fn cycle_beside(ledger: &Ledger, order: &NodeList) -> Option<NodeList>
    requires { NodeOrder ledger.now order.now }
    ensures { NodeCycle ledger.now result }
{
    if has_all(order, ledger.kept) {
        return None;
    }
    cycle_of(ledger)
}

// The order of the jobs that count, by their nodes: the smallest number first wherever the edges leave a choice.
fn order_of(ledger: &Ledger) -> NodeList
    ensures { NodeOrder ledger.now result }
{
    topological_order(&ledger.into, &ledger.numbers, ledger.kept)
}

// The verdict on the acts of the ledger.
fn decide(ledger: &Ledger, numbers: &mut [u32]) -> Verdict
    requires { Ready ledger.now (length numbers.old) }
    ensures { (H : List Act) → Keeps H ledger.now → Decides not_aborted H numbers.old result numbers.new }
{
    let order = order_of(ledger);
    match cycle_beside(ledger, &order) {
        // No: the list gets the numbers of the cycle.
        Some(cycle) => {
            put(ledger, &cycle, numbers);
            Verdict::No(cycle.count)
        }
        // Yes: the list gets the numbers of the order.
        None => {
            put(ledger, &order, numbers);
            Verdict::Yes(order.count)
        }
    }
}

// Judges a list of steps: could the jobs that did not abort have run one after another? Yes exactly when their reads and
// writes are conflict equivalent to some serial arrangement of them. On yes the list of numbers gets those jobs in such
// an order, the smallest number first wherever the edges leave a choice; on no it gets the jobs of a cycle. The answer
// says how many numbers were put, and the places behind them stay. A step out of turn, a 65th job or a list with fewer
// places than jobs were opened is refused, and the list stays as it was.
pub fn judge(steps: &[Step], numbers: &mut [u32]) -> Result<Verdict, JudgeRefusal>
    ensures { Judges not_aborted (acts steps.now) numbers.old result numbers.new }
{
    let ledger = read_steps(steps)?;
    if numbers.len() < ledger.numbers.len() {
        return Err(JudgeRefusal::ListTooShort);
    }
    Ok(decide(&ledger, numbers))
}
