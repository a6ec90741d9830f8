// Cycles of a part of a graph.
ghost use Rattle.std.specs.Prelude.{◌≡◌, ℕ, ◌&&◌};
ghost use Rattle.graph.specs.Edges.{Within};
ghost use Rattle.graph.specs.Graphs.{edges_of};
ghost use Rattle.graph.specs.Nodes.{has};
ghost use Rattle.graph.specs.Outcomes.{FindsCycle};

use crate::graph::Graph;
use crate::list::NodeList;
use crate::nodes::{NodeSet, contains, intersection, none};
use crate::path::find_path;

// A graph with only the edges between the nodes of a set.
#[derive(Drop)]
struct Part<'a, G: Graph> {
    graph: &'a G,
    nodes: NodeSet,
}

impl<G: Graph> Graph for Part<'_, G> {
    ghost size = { λ p. G.Graph.size p.graph.now };

    ghost leads = { λ p i j. has p.nodes j && (has p.nodes i && G.Graph.leads p.graph.now i j) };

    ghost few = { λ p. G.Graph.few p.graph.now };

    fn size(&self) -> usize {
        self.graph.size()
    }

    fn leads(&self, from: usize, to: usize) -> bool {
        contains(self.nodes, to) && contains(self.nodes, from) && self.graph.leads(from, to)
    }

    fn sources(&self, to: usize) -> NodeSet {
        if contains(self.nodes, to) {
            intersection(self.nodes, self.graph.sources(to))
        } else {
            none()
        }
    }
}

// A cycle among the nodes of the set: distinct nodes, each with an edge to the next one and the last to the first.
// None is answered where there is none. A node with an edge to itself is a cycle.
pub fn find_cycle<G: Graph>(graph: &G, set: NodeSet) -> Option<NodeList>
    ensures { FindsCycle (Within set (edges_of G.Graph graph.now)) result }
{
    let part = Part { graph, nodes: set };
    (0..graph.size()).find_map(|node| find_path(&part, node, node))
}
