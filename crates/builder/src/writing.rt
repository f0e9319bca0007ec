// Writing a whole record.
ghost use Rattle.std.specs.Prelude.{◌≡◌, ◌+◌, ◌-◌, ◌*◌, ◌≤◌, ◌<◌, [], length};
ghost use Rattle.octets.specs.Splice.{splice};
ghost use Rattle.fields.specs.Table.{put_field};
ghost use Rattle.paths.specs.Start.{path_start, InTree};
ghost use Rattle.paths.specs.Siblings.{siblings};
ghost use Rattle.sizes.specs.Sizes.{deal_level, segment_level, segment_position};
ghost use Rattle.sizes.specs.SizesLaws.{LentSize, SegmentSize};
ghost use Rattle.lent.specs.Seen.{seen};
ghost use Rattle.lent.specs.PathNodes.{IsNode};
ghost use Rattle.record.specs.Form.{table_row, record_length};
ghost use Rattle.builder.specs.BuildLaws.{InDeal};
ghost use Rattle.builder.specs.Encode.{record_for};

use entries::Fields;
use lent::{Lent, PathNode};

// The length of a record in a lent deal of d bytes, for a segment of a size.
pub(crate) fn record_length(d: u64, size: u64) -> usize
    requires { LentSize d × SegmentSize d size }
    ensures { result ≡ record_length d size }
{
    let deal_level = sizes::deal_level(d);
    let levels = deal_level - sizes::segment_level(size);
    let entry_levels = deal_level - 1;
    record::FIXED_LENGTH + 32 * levels + 32 * entry_levels
}

// Writes the fields of the two Merkle paths: that of the segment, whose node is in hand, and behind it that of the
// entry at a position. The answer is the place where they end.
fn put_paths(
    out: &mut [u8],
    at: usize,
    deal: &Lent,
    level: usize,
    segment: PathNode,
    entry_position: usize,
) -> usize
    requires level_nonzero { (0 < level) × InTree (deal_level (length deal.now.bytes.now))
        (path_start (deal_level (length deal.now.bytes.now) - level) level segment.position) }
    requires node { IsNode (seen deal.now).nodes level segment }
    requires in_tree { InTree (deal_level (length deal.now.bytes.now))
        (path_start (deal_level (length deal.now.bytes.now) - 1) 1 entry_position) }
    requires deal_in_bounds { at + 6 + 32 * (deal_level (length deal.now.bytes.now) - level)
        + 32 * (deal_level (length deal.now.bytes.now) - 1) ≤ length out.old }
    ensures { (result ≡ at + (3 + 32 * (deal_level (length deal.now.bytes.now) - level))
        + (3 + 32 * (deal_level (length deal.now.bytes.now) - 1)))
        × (out.new ≡ splice (splice out.old at
        (put_field (table_row 4).tag
        (siblings (seen deal.now).nodes
        (deal_level (length deal.now.bytes.now) - level) level segment.position) []))
        (at + (3 + 32 * (deal_level (length deal.now.bytes.now) - level)))
        (put_field (table_row 5).tag
        (siblings (seen deal.now).nodes
        (deal_level (length deal.now.bytes.now) - 1) 1 entry_position) [])) }
{
    let top = sizes::deal_level(deal.bytes.len() as u64);
    let size = 32 * (top - level);
    let row = record::SEGMENT_PATH;
    let content = fields::put_head(out, at, row.tag, size);
    let entry_row = record::ENTRY_PATH;
    let entry_size = 32 * (top - 1);
    let entry_content = fields::put_head(out, content + size, entry_row.tag, entry_size);
    deal.write_paths(level, segment, entry_position, out, content, entry_content);
    entry_content + entry_size
}

// Writes the record for the kept entry at a place of a lent deal with a number into the first bytes of `out`: the
// fields of the table in its order, each where the one before it ends. Its commitment is the node over the segment.
pub(crate) fn write_record(deal: &Lent, number: u64, entry: Fields, place: u64, out: &mut [u8])
    requires in_deal { InDeal (length deal.now.bytes.now) place entry.offset entry.size }
    requires commitment_value { entry.commitment
        ≡ (seen deal.now).nodes (segment_level entry.size)
        (segment_position entry.offset entry.size) }
    requires size_in_bounds { record_length (length deal.now.bytes.now) entry.size ≤ length out.old }
    ensures { out.new ≡ splice out.old 0
        (record_for (seen deal.now) number entry.commitment
        entry.offset entry.size place) }
{
    let level = sizes::segment_level(entry.size);
    let position = sizes::segment_position(entry.offset, entry.size) as usize;
    let entry_position = (place / 64) as usize;
    // One name: it is the record's commitment and the node that the paths start from.
    let commitment = entry.commitment;
    let at = fields::put_field(out, 0, record::COMMITMENT, commitment);
    let at = fields::put_field(out, at, record::OFFSET, entry.offset.to_le_bytes());
    let at = fields::put_field(out, at, record::SIZE, entry.size.to_le_bytes());
    let at = fields::put_field(out, at, record::PLACE, place.to_le_bytes());
    let segment = PathNode {
        position,
        node: commitment,
    };
    let at = put_paths(out, at, deal, level, segment, entry_position);
    fields::put_field(out, at, record::NUMBER, number.to_le_bytes());
}
