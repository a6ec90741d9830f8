// The jobs that use an item.
ghost use Rattle.std.specs.Prelude.{◌≡◌, ℕ, ◌<◌};
ghost use Rattle.graph.specs.Nodes.{has};
ghost use Rattle.verdict.specs.Users.{AddsUser, clashes, no_users};

use graph::nodes::{NodeSet, union, with};

// How a job uses an item. The hub has an enum of this name whose write carries the value that is then held.
#[derive(Clone, Copy)]
pub(crate) enum Access {
    Read,
    Write,
}

// The jobs that read an item so far, and those that wrote it.
#[derive(Clone, Copy)]
pub(crate) struct Users {
    pub(crate) readers: NodeSet,
    pub(crate) writers: NodeSet,
}

impl Users {
    // No job uses it.
    pub(crate) fn none() -> Users
        ensures { result ≡ no_users }
    {
        Users {
            readers: 0,
            writers: 0,
        }
    }

    // The jobs with which an access of the item conflicts: those that wrote it, and for a write those that read it too.
    pub(crate) fn conflicting(&self, access: Access) -> NodeSet
        ensures { (p : ℕ) → has result p ≡ clashes access self.now p }
    {
        match access {
            Access::Read => self.writers,
            Access::Write => union(self.readers, self.writers),
        }
    }

    // Notes that the job at the node accessed it so.
    pub(crate) fn note(&mut self, access: Access, node: usize)
        requires { node < 64 }
        ensures { AddsUser access self.old node self.new }
    {
        match access {
            Access::Read => self.readers = with(self.readers, node),
            Access::Write => self.writers = with(self.writers, node),
        }
    }
}
