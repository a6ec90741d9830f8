// Lists of nodes, as they are answered.
ghost use Rattle.std.specs.Prelude.{◌≡◌, ◌≤◌, length};
ghost use Rattle.graph.specs.Lists.{listed};

use arrayvec::ArrayVec;

// The nodes of a list that is still being made.
pub(crate) type Nodes = ArrayVec<usize, 64>;

// A list of at most 64 nodes: the first `count` of the array. It can be copied, as an ArrayVec cannot.
#[derive(Clone, Copy)]
pub struct NodeList {
    pub nodes: [usize; 64],
    pub count: usize,
}

impl NodeList {
    // The list of these nodes.
    pub(crate) fn of(nodes: &Nodes) -> NodeList
        ensures count { result.count ≤ 64 }
        ensures places { length result.nodes ≡ 64 }
        ensures nodes { listed result ≡ nodes.now.items }
    {
        let mut places = [0; 64];
        places[..nodes.len()].copy_from_slice(nodes);
        NodeList {
            nodes: places,
            count: nodes.len(),
        }
    }
}
