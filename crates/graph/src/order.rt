// The order of the nodes of a set by their keys and edges.
ghost use Rattle.std.specs.Prelude.{◌≡◌, ℕ, ◌<◌, ◌≤◌, length, IsTrue, ◌↔◌};
ghost use Rattle.graph.specs.Graphs.{edges_of};
ghost use Rattle.graph.specs.Lists.{listed};
ghost use Rattle.graph.specs.Nodes.{has};
ghost use Rattle.graph.specs.Orders.{Free, Orders, Picks, key_of, goes_first};

use crate::graph::Graph;
use crate::list::{NodeList, Nodes};
use crate::nodes::{NodeSet, contains, intersection, is_empty, without};
use crate::path::leading;

// The key of a node; one that has none counts as 0.
fn key(keys: &[u32], node: usize) -> u32
    ensures { result ≡ key_of keys.now node }
{
    keys.get(node).copied().unwrap_or(0)
}

// Whether no node of the set has an edge into the node.
fn is_free<G: Graph>(graph: &G, left: NodeSet, node: usize) -> bool
    requires { node < G.Graph.size graph.now }
    ensures { IsTrue result ↔ (Free (edges_of G.Graph graph.now) (has left) node) }
{
    is_empty(intersection(leading(graph, node), left))
}

// Whether the node goes before the best one so far, which is a smaller node.
fn goes_first(keys: &[u32], node: usize, best: Option<usize>) -> bool
    ensures { result ≡ goes_first keys.now node best }
{
    best.is_none_or(|other| key(keys, node) < key(keys, other))
}

// The node with the smallest key, of equal ones the smallest, among the eligible nodes of the graph that no node left
// has an edge into. None is answered where there is no such node. A node without a key counts as having key 0.
#[tactic(auto, using(crate::proofs::Orders::picks_skip, crate::proofs::Orders::picks_keep, crate::proofs::Orders::picks_take))]
pub fn next_free<G: Graph>(
    graph: &G,
    keys: &[u32],
    left: NodeSet,
    eligible: NodeSet,
) -> Option<usize>
    ensures { Picks (edges_of G.Graph graph.now) (G.Graph.size graph.now) keys.now (has left) (has eligible) result }
{
    // A loop: of a filter the proof learns what it passed over only where its test is a function of the node.
    let mut best = None;
    for node in 0..graph.size() {
        if contains(eligible, node) && is_free(graph, left, node) && goes_first(keys, node, best) {
            best = Some(node);
        }
    }
    best
}

// The nodes of the set in order: each time the one with the smallest key, of equal ones the smallest, that no node
// not yet placed has an edge into. It stops short where the nodes not placed have a cycle. A node without a key counts
// as having key 0.
#[tactic(auto, using(crate::proofs::Orders::placed_next, crate::proofs::Orders::placed_all, crate::proofs::Stuck::ordered_orders))]
pub fn topological_order<G: Graph>(graph: &G, keys: &[u32], set: NodeSet) -> NodeList
    ensures count { result.count ≤ 64 }
    ensures places { length result.nodes ≡ 64 }
    ensures order { Orders (edges_of G.Graph graph.now) (G.Graph.size graph.now) keys.now set (listed result) }
{
    let mut order = Nodes::new();
    let mut left = set;
    while let Some(node) = next_free(graph, keys, left, left) {
        order.push(node);
        left = without(left, node);
    }
    NodeList::of(&order)
}
