// The refusals: why a call does nothing, and the number that stands for each.
#![tactic(auto)]

ghost use Rattle.std.specs.Prelude.{◌≡◌};
ghost use Rattle.refusals.specs.Numbers.{number_of};

// Why a call refuses.
#[derive(Clone, Copy, PartialEq, Eq)]
pub enum Refusal {
    Unsound,
    LongText,
    NoNumber,
    NoReading,
    OutOfRange,
    NoNameRoom,
    LongLine,
    NoRoom,
    NoLine,
    NotWellFormed,
    LongListing,
    NoProgram,
    Damaged,
    NoFile,
}

impl Refusal {
    // The number that stands for a refusal.
    pub fn number(self) -> u8
        ensures { result ≡ number_of self }
    {
        match self {
            Refusal::Unsound => 1,
            Refusal::LongText => 2,
            Refusal::NoNumber => 3,
            Refusal::NoReading => 4,
            Refusal::OutOfRange => 5,
            Refusal::NoNameRoom => 6,
            Refusal::LongLine => 7,
            Refusal::NoRoom => 8,
            Refusal::NoLine => 9,
            Refusal::NotWellFormed => 10,
            Refusal::LongListing => 11,
            Refusal::NoProgram => 12,
            Refusal::Damaged => 13,
            Refusal::NoFile => 14,
        }
    }
}

// A refusal of what stands at a place of a text.
#[derive(Clone, Copy)]
pub struct RefusedAt {
    pub refusal: Refusal,
    pub place: usize,
}

// A refusal of an item of a text, from its place to its end; of a whole text, both 0.
#[derive(Clone, Copy)]
pub struct RefusedItem {
    pub refusal: Refusal,
    pub place: usize,
    pub end: usize,
}
