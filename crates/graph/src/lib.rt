// Directed graphs of at most 64 nodes, numbered from 0: path search, topological order, cycles.
//
// nodes    sets of nodes, a bit for each
// graph    what a graph is, and graphs as rows of marks
// list     lists of nodes
// path     path search
// order    the order of the nodes of a set, by keys and edges
// cycle    cycles of a part of a graph
#![tactic(auto)]

pub mod cycle;
pub mod graph;
pub mod list;
pub mod nodes;
pub mod order;
pub mod path;
