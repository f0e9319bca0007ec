// What booking decides, and what it answers.
ghost use Rattle.std.specs.Prelude.{◌≡◌, true, ℕ, ◌≤◌, ◌<◌};
ghost use Rattle.sizes.specs.Sizes.{lent_size_allowed, entry_count, index_start};
ghost use Rattle.room.specs.Room.{EndBy, ranges_in};
ghost use Rattle.room.specs.Decide as D;
ghost use Rattle.room.specs.Decide.{SlotBelow, answer_to, booked_with, decision_of, decision_with};

use crate::places::{lowest_free_slot, lowest_place};
use crate::{Decision, Placed, Range, Unbooked};
use rules::Refusal;

// What is decided for an area in a lent deal of a size, for a house that holds so many slots, where the test for 15
// found a slot that keeps the segment, or none: with none, 22 where the house holds half the slots or more, else the
// lowest free slot and the lowest free place, 13 without the one and 14 without the other.
// The ranges are an array: of a slice it would have to be asked that it has a range for each slot.
pub fn decide(
    size: u64,
    ranges: &[Range; 128],
    held: usize,
    area: u64,
    keeping: Option<usize>,
) -> Decision
    requires size_value { lent_size_allowed size ≡ true }
    requires area_nonzero { (0 < area) × (area ≤ size) × (held ≤ entry_count size) }
    requires end_by { EndBy (index_start size) (entry_count size) (ranges_in ranges.now) }
    ensures { decision_of result ≡ D.decide size (ranges_in ranges.now) held area keeping }
{
    if let Some(i) = keeping {
        return Decision::Already(i);
    }
    let slots = sizes::entry_count(size) as usize;
    if slots <= 2 * held {
        return Decision::Refuse(Refusal::Quota);
    }
    let ranges = &ranges[..slots];
    let Some(i) = lowest_free_slot(ranges) else {
        return Decision::Refuse(Refusal::NoSlot);
    };
    let Some(k) = lowest_place(ranges, area, sizes::index_start(size)) else {
        return Decision::Refuse(Refusal::NoPlace);
    };
    Decision::Place(i, k as u64 * area)
}

// The answer to a decision: the numbers of the slot that keeps the segment, or those that were decided, or the reason
// of a refusal. Which codes the reasons stand for is nothing to it: a refusal has its number, and a byte is any code.
// The ranges are an array here too: of a slice it would have to be asked that it has a range for each slot.
pub fn answer<R: Copy>(
    size: u64,
    ranges: &[Range; 128],
    decision: Decision<R>,
) -> Result<Placed, Unbooked<R>>
    requires size_value { lent_size_allowed size ≡ true }
    requires slot_below { (read : R → ℕ) × SlotBelow (entry_count size) (decision_with read decision) }
    ensures { (read : R → ℕ)
        → booked_with read result ≡ answer_to size (ranges_in ranges.now) (decision_with read decision) }
{
    match decision {
        Decision::Refuse(reason) => Err(Unbooked::Refused(reason)),
        Decision::Already(i) => Err(Unbooked::Already(Placed {
            offset: ranges[i].offset,
            place: sizes::slot_place(size, i as u64),
        })),
        Decision::Place(i, offset) => Ok(Placed {
            offset,
            place: sizes::slot_place(size, i as u64),
        }),
    }
}
