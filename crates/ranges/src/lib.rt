// Which bytes the slots of a lent deal take up, each slot read and judged once.
#![tactic(auto)]

ghost use Rattle.std.specs.Prelude.{◌≡◌, true, length};
ghost use Rattle.sizes.specs.Sizes.{lent_size_allowed, entry_count};
ghost use Rattle.room.specs.Room.{SameBelow, ranges_in};
ghost use Rattle.ranges.specs.Ranges.{ranges_of};

use room::Range;

// The ranges of a lent deal's standing entries, one a slot. A lent deal has at most 128 slots, and there is no heap, so
// they are an array.
pub fn gather(deal: &[u8]) -> [Range; 128]
    requires { lent_size_allowed (length deal.now) ≡ true }
    ensures { SameBelow (entry_count (length deal.now)) (ranges_in result) (ranges_of deal.now) }
{
    let deal_size = deal.len() as u64;
    let slots = sizes::entry_count(deal_size) as usize;
    let none = Range { offset: 0, area: 0 };
    let mut ranges = [none; 128];
    for i in 0..slots {
        let place = sizes::slot_place(deal_size, i as u64);
        if let Some(entry) = index::standing_at(deal, place as usize) {
            ranges[i] = Range {
                offset: entry.offset,
                area: sizes::area(entry.size),
            };
        }
    }
    ranges
}
