// Sets of nodes, one bit of a word for each: node 0 is the lowest bit. A node from 64 on is in no set.
ghost use Rattle.std.specs.Prelude.{◌≡◌, ℕ, ◌≤◌, false, not, ◌&&◌, ◌||◌, ◌==◌, nat_lt, IsTrue, ◌↔◌};
ghost use Rattle.graph.specs.Nodes.{has, MemberOf};

// A plain word: rows of such words are handed whole to the search.
pub type NodeSet = u64;

// The nodes of the first set that are not in the second.
#[tactic(auto, using(crate::proofs::Words::word_minus))]
pub(crate) fn minus(a: NodeSet, b: NodeSet) -> NodeSet
    ensures { (k : ℕ) → has result k ≡ (has a k && not (has b k)) }
{
    a & !b
}

// The nodes that are in both sets.
#[tactic(auto, using(crate::proofs::Words::bit_both))]
pub(crate) fn intersection(a: NodeSet, b: NodeSet) -> NodeSet
    ensures { (k : ℕ) → has result k ≡ (has a k && has b k) }
{
    a & b
}

// The set of no node.
#[tactic(auto, using(crate::proofs::Words::bit_none))]
pub(crate) fn none() -> NodeSet
    ensures { (k : ℕ) → has result k ≡ false }
{
    0
}

// Whether the set has no node.
#[tactic(auto, using(crate::proofs::Words::word_empty))]
pub fn is_empty(set: NodeSet) -> bool
    ensures { IsTrue result ↔ ((k : ℕ) → has set k ≡ false) }
{
    set == 0
}

// A node of the set, if it has one: the smallest.
pub(crate) fn any_node(set: NodeSet) -> Option<usize>
    ensures { MemberOf set result }
{
    if is_empty(set) {
        None
    } else {
        Some(set.trailing_zeros() as usize)
    }
}

// The nodes below this one.
#[tactic(auto, using(crate::proofs::Words::word_below, crate::proofs::Words::word_full))]
pub(crate) fn below(node: usize) -> NodeSet
    requires { node ≤ 64 }
    ensures { (k : ℕ) → has result k ≡ nat_lt k node }
{
    if node < 64 { (1 << node) - 1 } else { u64::MAX }
}

// Whether the node is in the set.
#[tactic(auto, using(crate::proofs::Words::bit_mask, crate::proofs::Words::word_past))]
pub fn contains(set: NodeSet, node: usize) -> bool
    ensures { result ≡ has set node }
{
    node < 64 && set >> node & 1 == 1
}

// The set with the node added to it; a node from 64 on adds nothing.
#[tactic(auto, using(crate::proofs::Words::word_with))]
pub fn with(set: NodeSet, node: usize) -> NodeSet
    ensures { (k : ℕ) → has result k ≡ (has set k || (nat_lt node 64 && k == node)) }
{
    if node < 64 { set | 1 << node } else { set }
}

// The set with the node taken out of it.
#[tactic(auto, using(crate::proofs::Words::word_without, crate::proofs::Words::word_kept))]
pub fn without(set: NodeSet, node: usize) -> NodeSet
    ensures { (k : ℕ) → has result k ≡ (has set k && not (k == node)) }
{
    if node < 64 { set & !(1 << node) } else { set }
}

// The nodes that are in one of the two sets, or in both.
#[tactic(auto, using(crate::proofs::Words::bit_either))]
pub fn union(a: NodeSet, b: NodeSet) -> NodeSet
    ensures { (k : ℕ) → has result k ≡ (has a k || has b k) }
{
    a | b
}
