// Finding a segment of a lent deal by its commitment.
ghost use Rattle.std.specs.Prelude.{◌≡◌, true, ◌+◌, ◌≤◌, length};
ghost use Rattle.sizes.specs.Sizes.{lent_size_allowed};
ghost use Rattle.lent.specs.LentDeal.{lent_deal};
ghost use Rattle.lent.specs.Seen.{seen};
ghost use Rattle.index.specs.Slots.{row_as};
ghost use Rattle.index.specs.Tried.{naming_row, TriedBefore};
ghost use Rattle.index.specs.Find.{found_as, found_in, lowest_with_commitment, find_numbers, find_view};

use crate::slots::{segment_has, standing_at};
use crate::{Area, FoundSegment};
use entries::Fields;
use lent::Lent;
use rules::Refusal;

// The fields of the entry at a place of a lent deal, where it stands and names this commitment. Nothing of the segment
// is read.
fn naming_at(deal: &[u8], place: usize, commitment: &[u8]) -> Option<Fields>
    requires { (lent_size_allowed (length deal.now) ≡ true) × (place + 64 ≤ length deal.now) }
    ensures { row_as result ≡ naming_row deal.now commitment.now place }
{
    let row = standing_at(deal, place)?;
    if row.commitment.as_slice() != commitment {
        return None;
    }
    Some(row)
}

// Whether an area is one of those that were tried.
fn tried_before(tried: &[Area], area: &Area) -> bool
    ensures { result ≡ true → TriedBefore tried.now area.now }
{
    tried.contains(area)
}

// The lowest slot of a lent deal that holds a kept entry with this commitment. Every area that entries with this
// commitment name is hashed once: one that was tried before in vain is not hashed again.
fn lowest_with_commitment(deal: &Lent, commitment: &[u8]) -> Result<FoundSegment, Refusal>
    ensures { found_as result
        ≡ found_in deal.now.bytes.now (lowest_with_commitment (seen deal.now) commitment.now) }
{
    let deal_size = deal.bytes.len() as u64;
    let mut tried = [Area {
        offset: 0,
        bytes: 0,
    }; 128];
    for i in 0..sizes::entry_count(deal_size) as usize {
        let place = sizes::slot_place(deal_size, i as u64);
        let Some(row) = naming_at(deal.bytes, place as usize, commitment) else {
            continue;
        };
        let area = Area {
            offset: row.offset,
            bytes: sizes::area(row.size),
        };
        if !tried_before(&tried[..i], &area) && segment_has(deal, row) {
            return Ok(FoundSegment {
                offset: row.offset,
                size: row.size,
                place,
            });
        }
        tried[i] = area;
    }
    Err(Refusal::NotKept)
}

// Where a segment with this commitment is kept in a lent deal: offset, size and entry place of the lowest slot. 1 for a
// commitment that is not 32 bytes long, 2 for a deal size that is not allowed, 11 for a deal with stray bits, 16 for no
// such slot.
pub fn find_numbers(deal: &[u8], commitment: &[u8]) -> Result<FoundSegment, Refusal>
    ensures { found_as result ≡ find_numbers (lent_deal deal.now) commitment.now }
{
    if commitment.len() != 32 {
        return Err(Refusal::CommitmentLength);
    }
    let lent = Lent::new(deal, None)?;
    lowest_with_commitment(&lent, commitment)
}

// The bytes of that segment: the part of the lent deal itself, at the offset and of the size that were found; empty on
// every refusal.
pub fn find<'d, 'c>(deal: &'d [u8], commitment: &'c [u8]) -> &'d [u8]
    ensures view { result.now ≡ find_view (lent_deal deal.now) commitment.now }
    ensures same_region { result.ref_ptr.0 ≡ deal.entry.ref_ptr.0 }
    ensures at_offset { result.ref_ptr.1
        ≡ (find_numbers (lent_deal deal.now) commitment.now).offset + deal.entry.ref_ptr.1 }
    ensures size { length result.now ≡ (find_numbers (lent_deal deal.now) commitment.now).size }
{
    let Ok(found) = find_numbers(deal, commitment) else {
        return &deal[..0];
    };
    let start = found.offset as usize;
    let end = start + found.size as usize;
    &deal[start..end]
}
