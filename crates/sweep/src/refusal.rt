// What a call is refused by: the question that got a no. A host is told its number.
ghost use Rattle.std.specs.Prelude.{◌≡◌};
ghost use Rattle.sweep.specs.Entry.{answer_of};
ghost use Rattle.sweep.specs.Refusal.{number_of, missed_by};
ghost use Rattle.sweep.specs.declared.refusal.Refusal.TheVariants.{Merges};

use merge::merge::MergeRefused;

// The questions of all entries, by what they ask about.
#[derive(Clone, Copy, Debug, PartialEq, Eq)]
pub enum Refusal {
    Size = 1,
    Lengths = 2,
    Mask = 3,
    Work = 4,
    Nyquist = 5,
    Options = 6,
    Velocities = 7,
    Limits = 8,
    Merges = 9,
    Counts = 10,
    CutShort = 11,
    Malformed = 12,
    Book = 13,
    Window = 14,
}

impl Refusal {
    // The question's number.
    pub fn number(self) -> u32
        ensures { result ≡ number_of self }
    {
        self as u32
    }
}

// A merge that question 9 says no to refuses the call.
impl From<MergeRefused> for Refusal {
    ghost from_gives = { λ _ r. r ≡ Merges };

    fn from(_refused: MergeRefused) -> Refusal {
        Refusal::Merges
    }
}

// A call's answer as a host is told it: the number of the question that got a no, or 0.
pub fn answer(outcome: Result<(), Refusal>) -> u32
    ensures { result ≡ answer_of (missed_by outcome) }
{
    match outcome {
        Ok(()) => 0,
        Err(refusal) => refusal.number(),
    }
}
