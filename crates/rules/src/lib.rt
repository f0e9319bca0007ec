// Refusals, their numbers and their order; choices and searches: definitions and laws in specs/.
#![tactic(auto)]

ghost use Rattle.std.specs.Prelude.{◌≡◌};
ghost use Rattle.rules.specs.Answers.{number, code_of};

// Why a call is refused. The numbers are those of `number`.
#[derive(Clone, Copy, Debug, PartialEq, Eq)]
pub enum Refusal {
    CommitmentLength = 1,
    Size = 2,
    Form = 3,
    SegmentSize = 4,
    Offset = 5,
    Place = 6,
    PathLength = 7,
    CommitmentBits = 8,
    SegmentPath = 9,
    EntryPath = 10,
    StrayBits = 11,
    Output = 12,
    NoSlot = 13,
    NoPlace = 14,
    NotKept = 16,
    OtherPlace = 18,
    PathBits = 19,
    Overlap = 20,
    DealNumber = 21,
    Quota = 22,
    House = 23,
    SegmentLength = 24,
}

impl Refusal {
    // The number of a refusal.
    pub fn code(self) -> u8
        ensures { result ≡ number self }
    {
        self as u8
    }
}

// The code of a call that only succeeds or is refused: 0, or the refusal's number.
pub fn code_of(answer: Result<(), Refusal>) -> u8
    ensures { result ≡ code_of answer }
{
    match answer {
        Ok(()) => 0,
        Err(refusal) => refusal.code(),
    }
}
