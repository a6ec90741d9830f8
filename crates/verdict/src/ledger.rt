// The jobs of the steps so far, and the edges between them.
ghost use Rattle.std.specs.Prelude.{◌≡◌, ℕ, ◌<◌, length, IfSome};
ghost use Rattle.graph.specs.Nodes.{has};
ghost use Rattle.verdict.specs.Ledgers.{Draws, Drops, Ends, Finds, FindsOpen, Notes, Opens, blank, users_at};

use crate::users::{Access, Users};
use arrayvec::ArrayVec;
use graph::nodes::{NodeSet, contains, union, with, without};

// The jobs opened so far, each at a node in the order of opening: their numbers, which of them are open, which of
// them count, and for each the set of those with an edge to it. For each item below 64 the jobs that use it.
#[derive(Drop)]
pub(crate) struct Ledger {
    pub(crate) numbers: ArrayVec<u32, 64>,
    pub(crate) running: NodeSet,
    pub(crate) kept: NodeSet,
    // Rows of words, handed whole to the search for a cycle.
    pub(crate) into: [u64; 64],
    pub(crate) users: [Users; 64],
}

impl Ledger {
    // No job is opened.
    pub(crate) fn new() -> Ledger
        ensures { result ≡ blank }
    {
        Ledger {
            numbers: ArrayVec::new(),
            running: 0,
            kept: 0,
            into: [0; 64],
            users: [Users::none(); 64],
        }
    }

    // The node of the job with this number.
    pub(crate) fn find(&self, job: u32) -> Option<usize>
        ensures found { Finds self.now job result }
        ensures fits { IfSome result (λ node. node < 64) }
    {
        self.numbers.iter().position(|number| *number == job)
    }

    // The node of the job with this number, if it is open.
    pub(crate) fn find_open(&self, job: u32) -> Option<usize>
        ensures { FindsOpen self.now job result }
    {
        self.find(job).filter(|node| contains(self.running, *node))
    }

    // Opens a job at the next node.
    pub(crate) fn add(&mut self, job: u32)
        requires { length self.old.numbers.items < 64 }
        ensures { Opens self.old job self.new }
    {
        let node = self.numbers.len();
        self.numbers.push(job);
        self.running = with(self.running, node);
        self.kept = with(self.kept, node);
    }

    // The job at the node is open no more.
    pub(crate) fn end(&mut self, node: usize)
        ensures { Ends self.old node self.new }
    {
        self.running = without(self.running, node);
    }

    // The job at the node is open no more, and does not count.
    pub(crate) fn strike(&mut self, node: usize)
        ensures { Drops self.old node self.new }
    {
        self.running = without(self.running, node);
        self.kept = without(self.kept, node);
    }

    // Draws edges to the job at the node from all others of the set.
    pub(crate) fn draw(&mut self, node: usize, from: NodeSet)
        requires { node < 64 }
        ensures { Draws self.old node from self.new }
    {
        let others = without(from, node);
        self.into[node] = union(self.into[node], others);
    }

    // Notes that the job at the node accessed the item so, if it is below 64.
    pub(crate) fn note(&mut self, access: Access, item: u32, node: usize)
        requires { node < 64 }
        ensures { Notes self.old access item node self.new }
    {
        if item < 64 {
            self.users[item as usize].note(access, node);
        }
    }
}
