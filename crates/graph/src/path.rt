// Path search, breadth first.
ghost use Rattle.std.specs.Prelude.{◌≡◌, ℕ, ◌+◌, ◌<◌, true, false, [], length, slice_index, IsTrue, ◌↔◌};
ghost use Rattle.graph.specs.Graphs.{edges_of};
ghost use Rattle.graph.specs.Nodes.{has};
ghost use Rattle.graph.specs.Outcomes.{Finds};
ghost use Rattle.graph.specs.Paths.{Path};
ghost use Rattle.graph.specs.Search.{Adds, Starts, depth_of, from_of, way_before};

use crate::graph::Graph;
use crate::list::{NodeList, Nodes};
use crate::nodes::{NodeSet, any_node, below, contains, intersection, minus, union, with, without};

// How a search came to a node: the node before it on its way from the start, and how many edges that way has.
#[derive(Clone, Copy)]
struct Reach {
    from: usize,
    depth: usize,
}

// The nodes that a search has found, in the order of finding, and how it came to each.
#[derive(Drop)]
struct Found {
    order: Nodes,
    seen: NodeSet,
    reach: [Reach; 64],
}

impl Found {
    // Only the start is found.
    fn start(start: usize) -> Found
        requires { start < 64 }
        ensures { Starts start result }
    {
        let mut order = Nodes::new();
        order.push(start);
        Found {
            order,
            seen: with(0, start),
            reach: [Reach { from: 0, depth: 0 }; 64],
        }
    }

    // Notes that an edge leads to a node, unless the node was found before.
    fn note(&mut self, at: usize, to: usize)
        requires from { at < 64 }
        requires to { to < 64 }
        requires room { has self.old.seen to ≡ false → length self.old.order.items < 64 }
        requires near { depth_of self.old at < 64 }
        ensures found { has self.old.seen to ≡ true → self.new ≡ self.old }
        ensures fresh { has self.old.seen to ≡ false → Adds self.old at to self.new }
    {
        if contains(self.seen, to) {
            return;
        }
        self.order.push(to);
        self.seen = with(self.seen, to);
        self.reach[to] = Reach {
            from: at,
            depth: self.reach[at].depth + 1,
        };
    }

    // The way on which the search came to the node, with the node at its end.
    #[tactic(auto, using(crate::proofs::Search::way_push))]
    fn way_to(&self, node: usize) -> Nodes
        requires inside { node < 64 }
        requires near { depth_of self.now node < 64 }
        requires low { (k : ℕ) → from_of self.now k < 64 }
        ensures { result.items ≡ way_before self.now (depth_of self.now node + 1) node [] }
    {
        let mut way = Nodes::new();
        let mut at = node;
        for _ in 0..self.reach[node].depth + 1 {
            way.push(at);
            at = self.reach[at].from;
        }
        way.reverse();
        way
    }
}

// The search from a start that is a node of the graph. A node from which an edge leads to the goal ends it.
#[tactic(auto, using(crate::proofs::Search::searching_none, crate::proofs::Search::searched_more))]
fn search<G: Graph>(graph: &G, start: usize, goal: usize) -> Option<NodeList>
    requires { start < G.Graph.size graph.now }
    ensures { Finds (edges_of G.Graph graph.now) start goal result }
{
    let size = graph.size();
    let mut found = Found::start(start);
    let mut head = 0;
    let mut last = None;
    // Nested loops over the frontier and the nodes, left by a label from the inner one: a rule of the project.
    'search: while head < found.order.len() {
        let at = found.order[head];
        for to in 0..size {
            if graph.leads(at, to) {
                if to == goal {
                    last = Some(at);
                    break 'search;
                }
                found.note(at, to);
            }
        }
        head += 1;
    }
    let at = last?;
    Some(NodeList::of(&found.way_to(at)))
}

// The nodes from which an edge leads to this one.
pub(crate) fn leading<G: Graph>(graph: &G, node: usize) -> NodeSet
    requires { node < G.Graph.size graph.now }
    ensures only { (k : ℕ) → has result k ≡ true → edges_of G.Graph graph.now k node }
    ensures all { (k : ℕ) → edges_of G.Graph graph.now k node → has result k ≡ true }
{
    intersection(graph.sources(node), below(graph.size()))
}

// Whether a path of one edge or more leads from the start to the goal, which is a node of the graph.
#[tactic(auto, using(crate::proofs::Reach::reaching_all))]
fn reaches<G: Graph>(graph: &G, start: usize, goal: usize) -> bool
    requires { goal < G.Graph.size graph.now }
    ensures { IsTrue result ↔ (Path (edges_of G.Graph graph.now) start goal) }
{
    let mut seen = leading(graph, goal);
    let mut left = seen;
    while let Some(at) = any_node(left) {
        let fresh = minus(leading(graph, at), seen);
        seen = union(seen, fresh);
        left = union(without(left, at), fresh);
    }
    contains(seen, start)
}

// A path of one edge or more from the start to the goal, found breadth first: its nodes from the start on, without
// the goal at its end. Start and goal may be the same: the path is then a cycle. None is answered where there is no
// such path.
#[tactic(auto, using(crate::proofs::Reach::begins_inside, crate::proofs::Reach::ends_inside))]
pub fn find_path<G: Graph>(graph: &G, start: usize, goal: usize) -> Option<NodeList>
    ensures { Finds (edges_of G.Graph graph.now) start goal result }
{
    if goal < graph.size() && reaches(graph, start, goal) {
        search(graph, start, goal)
    } else {
        None
    }
}
