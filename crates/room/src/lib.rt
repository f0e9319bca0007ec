// Room in a deal, from numbers alone: which bytes each slot takes up, which slot and which place are free, and what
// booking decides and answers from them.
#![tactic(auto)]

mod deciding; // deciding.rt: the decision, and the answer to it
mod places; // places.rt: overlaps, the lowest free slot and the lowest free place

ghost use Rattle.std.specs.Prelude.{◌≡◌, Err};
ghost use Rattle.room.specs.Decide.{booked_of};
ghost use Rattle.room.specs.declared.Unbooked.TheVariants.{Refused};

pub use deciding::{answer, decide};
pub use places::lowest_overlap;
use rules::Refusal;

// The bytes that a slot takes up: offset and area, both 0 for a free slot.
#[derive(Clone, Copy, Debug, PartialEq, Eq)]
pub struct Range {
    pub offset: u64,
    pub area: u64,
}

// What booking decides: a refusal, the slot that keeps the segment already, or the slot and the offset for it. It is no
// `Result`: it has three outcomes, of which one carries a slot and an offset, and `answer` reads each. The reason of a
// refusal may be of another type, such as a byte that is any code.
#[derive(Clone, Copy, Debug, PartialEq, Eq)]
pub enum Decision<R = Refusal> {
    Refuse(R),
    Already(usize),
    Place(usize, u64),
}

// Where a segment is: offset and entry place.
#[derive(Clone, Copy, Debug, PartialEq, Eq)]
pub struct Placed {
    pub offset: u64,
    pub place: u64,
}

// Why a segment is not booked: a refusal, or that it is kept already, and where.
#[derive(Clone, Copy, Debug, PartialEq, Eq)]
pub enum Unbooked<R = Refusal> {
    Refused(R),
    Already(Placed),
}

impl From<Refusal> for Unbooked {
    ghost use Rattle.std.specs.Prelude.{◌≡◌};

    ghost from_gives = { λ x r. r ≡ Refused x };

    fn from(refusal: Refusal) -> Unbooked
        ensures { result ≡ Refused refusal }
    {
        Unbooked::Refused(refusal)
    }
}

// The answer to a booking in numbers, as a line of a log has it: the code, 0 or 15 or a refusal's, with offset and
// entry place of the segment; zeros on a refusal but 15.
#[derive(Clone, Copy, Debug, PartialEq, Eq)]
pub struct Booked {
    // The code is a byte: in a line of a log it may be any until the line's form is checked.
    pub code: u8,
    pub offset: u64,
    pub place: u64,
}

// The answer in numbers.
pub fn booked_of(answer: Result<Placed, Unbooked>) -> Booked
    ensures { result ≡ booked_of answer }
{
    match answer {
        Ok(at) => Booked {
            code: 0,
            offset: at.offset,
            place: at.place,
        },
        Err(Unbooked::Already(at)) => Booked {
            code: 15,
            offset: at.offset,
            place: at.place,
        },
        Err(Unbooked::Refused(reason)) => Booked {
            code: reason.code(),
            offset: 0,
            place: 0,
        },
    }
}
