// The slots of a deal's index: which entries stand, and which are kept.
ghost use Rattle.std.specs.Prelude.{◌≡◌, true, ◌+◌, ◌≤◌, length};
ghost use Rattle.octets.specs.Equality.{same_bytes};
ghost use Rattle.sizes.specs.Sizes.{lent_size_allowed, segment_size_allowed, offset_allowed};
ghost use Rattle.sizes.specs.Sizes.{segment_level, segment_position};
ghost use Rattle.lent.specs.Seen.{seen};
ghost use Rattle.index.specs.Slots.{entry_at, row_as, row_of, kept_row};

use entries::{EntryKind, Fields};
use lent::Lent;

// The fields of the entry at a place of a lent deal, where it stands.
pub fn standing_at(deal: &[u8], place: usize) -> Option<Fields>
    requires { (lent_size_allowed (length deal.now) ≡ true) × (place + 64 ≤ length deal.now) }
    ensures { row_as result ≡ row_of (length deal.now) (entry_at deal.now place) }
{
    let end = place + 64;
    let entry = &deal[place..end];
    // An `if` with `!=` was tried here: the proof did not close.
    let EntryKind::Valid = entries::kind_of(entry) else {
        return None;
    };
    let fields = entries::fields_of(entry);
    let deal_size = deal.len() as u64;
    if !sizes::segment_size_allowed(deal_size, fields.size) {
        return None;
    }
    if !sizes::offset_allowed(deal_size, fields.offset, fields.size) {
        return None;
    }
    Some(fields)
}

// The node over the area of a segment of a lent deal.
pub fn segment_node(deal: &Lent, offset: u64, size: u64) -> [u8; 32]
    requires size_allowed { segment_size_allowed (length deal.now.bytes.now) size ≡ true }
    requires offset_allowed { offset_allowed (length deal.now.bytes.now) offset size ≡ true }
    ensures { result ≡ (seen deal.now).nodes (segment_level size) (segment_position offset size) }
{
    let level = sizes::segment_level(size);
    let levels = sizes::deal_level(deal.bytes.len() as u64) - level;
    let position = sizes::segment_position(offset, size) as usize;
    deal.node_in(levels, level, position)
}

// Whether the node over a segment's area is its commitment.
pub(crate) fn segment_has(deal: &Lent, row: Fields) -> bool
    requires size_allowed { segment_size_allowed (length deal.now.bytes.now) row.size ≡ true }
    requires offset_allowed { offset_allowed (length deal.now.bytes.now) row.offset row.size ≡ true }
    ensures { result
        ≡ same_bytes
        ((seen deal.now).nodes (segment_level row.size) (segment_position row.offset row.size))
        row.commitment }
{
    segment_node(deal, row.offset, row.size) == row.commitment
}

// The fields of the entry at a place of a lent deal, where it is kept.
pub fn kept_at(deal: &Lent, place: usize) -> Option<Fields>
    requires { place + 64 ≤ length deal.now.bytes.now }
    ensures { row_as result
        ≡ kept_row (seen deal.now).nodes (length deal.now.bytes.now)
        (entry_at deal.now.bytes.now place) }
{
    let row = standing_at(deal.bytes, place)?;
    if !segment_has(deal, row) {
        return None;
    }
    Some(row)
}
