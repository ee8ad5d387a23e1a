// The refusals of document 01, "The numbers we say no with", and of document 02.
ghost use Rattle.std.specs.Prelude.{◌≡◌};
ghost use Rattle.ground.specs.Refusal.{number};

// Why a call says no. Each has the number that it has in the documents, from 1 on in this order.
#[derive(Clone, Copy, Debug, PartialEq, Eq)]
pub enum Refusal {
    NotWhole = 1,
    NotNamed,
    Damaged,
    OffGround,
    NotCovered,
    NoHeight,
    NoPath,
    AboveLimit,
    NoPair,
    UnfitLists,
}

impl Refusal {
    // Its number in the documents, by which C knows it.
    pub fn number(self) -> u32
        ensures { result ≡ number self }
    {
        self as u32
    }
}
