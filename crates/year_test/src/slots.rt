// What stands in the slots of a deal.
ghost use Rattle.std.specs.Prelude.{◌<◌};

use crate::parts::part;
use audit::SlotState;
use entries::ReadEntry;

// How many slots the deals here have.
pub(crate) const SLOTS: usize = 4;

// The states of a slot that an audit gives to a standing entry: overlapping one in a lower slot, with a wrong
// commitment, kept. They are bytes, as the buffer of an audit has them.
const OVERLAPPING: u8 = SlotState::Overlapping as u8;

const KEPT: u8 = SlotState::Kept as u8;

// An entry that stands: whether it is kept, whose it is, its offset and its T.
#[derive(Clone, Copy)]
pub(crate) struct Standing {
    pub(crate) kept: bool,
    pub(crate) owner: u8,
    pub(crate) offset: u64,
    pub(crate) size: u64,
}

// A slot: its entry place, and the entry that stands there, if one does.
#[derive(Clone, Copy)]
pub(crate) struct Slot {
    pub(crate) place: u64,
    pub(crate) standing: Option<Standing>,
}

pub(crate) type Slots = [Slot; SLOTS];

// The slot of this number, with the state that an audit gives it and its byte of the table of owners. The state alone
// says whether an entry stands. Where it says so of an entry that is not valid, offset and T are zeros here, and the
// tests fail on it.
fn slot_of(deal: &[u8], i: usize, state: u8, owner: u8) -> Slot
    requires { i < 4 }
{
    let start = sizes::index_numbers(deal.len() as u64).map_or(0, |numbers| numbers.start);
    let place = start.wrapping_add(64 * (i as u64));
    let (offset, size) = match entries::read_entry(part(deal, place, 64)) {
        Ok(ReadEntry::Valid(fields)) => (fields.offset, fields.size),
        _ => (0, 0),
    };
    let standing = if OVERLAPPING <= state {
        Some(Standing {
            kept: state == KEPT,
            owner,
            offset,
            size,
        })
    } else {
        None
    };
    Slot { place, standing }
}

// The slots of a deal and its table. In a deal that an audit refuses nothing stands.
pub(crate) fn slots_of(deal: &[u8], table: &[u8]) -> Slots {
    let mut states = [0u8; SLOTS];
    let _ = audit::audit(deal, &mut states);
    let mut slots = [Slot {
        place: 0,
        standing: None,
    }; SLOTS];
    for i in 0..SLOTS {
        if i < table.len() {
            slots[i] = slot_of(deal, i, states[i], table[i]);
        }
    }
    slots
}

// What stands at an entry place.
pub(crate) fn standing_at(slots: &Slots, place: u64) -> Option<Standing> {
    for slot in slots {
        if slot.place == place {
            return slot.standing;
        }
    }
    None
}

// The sum of the standing areas.
pub(crate) fn standing_sum(slots: &Slots) -> u64 {
    let mut sum: u64 = 0;
    for slot in slots {
        if let Some(standing) = slot.standing {
            sum = sum.wrapping_add(sizes::area(standing.size));
        }
    }
    sum
}
