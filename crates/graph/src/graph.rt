// What a graph is, and graphs as rows of marks.
ghost use Rattle.std.specs.Prelude.{◌≡◌, ℕ, ◌<◌, ◌≤◌, min, Bool};
ghost use Rattle.std.proofs.Math.Nat.{min-le_right};
ghost use Rattle.graph.specs.Nodes.{has};
ghost use Rattle.graph.specs.Rows.{marked};

use crate::nodes::{NodeSet, contains, none};

// A directed graph of at most 64 nodes, numbered from 0. What it answers of other nodes does not count: they
// have no edges.
pub trait Graph {
    ghost size: { Self → ℕ };

    ghost leads: { Self → ℕ → ℕ → Bool };

    ghost few: { (g : Self) → size g ≤ 64 };

    // How many nodes it has.
    fn size(&self) -> usize
        ensures { result ≡ size self.now };

    // Whether an edge leads from the one node to the other.
    fn leads(&self, from: usize, to: usize) -> bool
        ensures { result ≡ leads self.now from to };

    // The set of the nodes from which an edge leads to the node.
    fn sources(&self, to: usize) -> NodeSet
        ensures { (k : ℕ) → k < size self.now → has result k ≡ leads self.now k to };
}

// Rows of marks, one for each node: the set of the nodes that lead into it. Rows past the 64th do not count.
impl<const N: usize> Graph for [u64; N] {
    ghost size = { λ _. min N 64 };

    ghost leads = { marked N };

    ghost few = { λ _. min-le_right N 64 };

    fn size(&self) -> usize {
        N.min(64)
    }

    fn leads(&self, from: usize, to: usize) -> bool {
        to < N && contains(self[to], from)
    }

    fn sources(&self, to: usize) -> NodeSet {
        if to < N { self[to] } else { none() }
    }
}
