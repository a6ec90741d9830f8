ghost use Rattle.std.specs.Prelude.{◌≡◌};
ghost use Rattle.history.specs.Refusals.{refusal_number, holder};

// Why a hub says no to a call.
#[derive(Clone, Copy, PartialEq, Eq, Debug)]
pub enum Refusal {
    // Every slot of the job table is taken.
    TableFull,
    // The last job number was given out.
    NumbersSpent,
    // No present job has the number.
    NotPresent,
    // The job is committed.
    AlreadyCommitted,
    // The hub does not serve the item.
    ItemNotServed,
    // Another job holds the item.
    ItemHeld { holder: u32 },
    // The step would close a cycle; its job is aborted.
    ClosesCycle,
    // The store has less room than the job holds items.
    NoRoom,
}

impl Refusal {
    // The number by which a refusal is known outside the program. By cases, as the documents fix them: `u32::from`
    // would not say which number it is.
    pub fn number(&self) -> u32
        ensures { result ≡ refusal_number self.now }
    {
        match self {
            Refusal::TableFull => 1,
            Refusal::NumbersSpent => 2,
            Refusal::NotPresent => 3,
            Refusal::AlreadyCommitted => 4,
            Refusal::ItemNotServed => 5,
            Refusal::ItemHeld { holder: _ } => 6,
            Refusal::ClosesCycle => 7,
            Refusal::NoRoom => 8,
        }
    }

    // The job that holds the item, if that is why.
    pub fn holder(&self) -> Option<u32>
        ensures { result ≡ holder self.now }
    {
        match self {
            Refusal::ItemHeld { holder } => Some(*holder),
            _ => None,
        }
    }
}
