// Settling a record with a deal, with a tree beside it or without one.
ghost use Rattle.std.specs.Prelude.{◌≡◌, true, length};
ghost use Rattle.sizes.specs.Sizes.{deal_size_allowed, segment_size_allowed, offset_allowed, place_allowed};
ghost use Rattle.sizes.specs.Sizes.{segment_level, segment_position};
ghost use Rattle.record.specs.Answers.{read_fields};
ghost use Rattle.record.specs.CheckLaws.{Accepted};
ghost use Rattle.lent.specs.LentDeal.{lent_deal, tree_deal, deal_refusal};
ghost use Rattle.lent.specs.Seen.{seen};
ghost use Rattle.paths.specs.Compare.{seen_as};
ghost use Rattle.builder.specs.Build.{deal_commitment, terms_of, segment_path_of, entry_path_of};
ghost use Rattle.builder.specs.BuildLaws.{InDeal};
ghost use Rattle.settle.specs.Answers.{settled_answer};
ghost use Rattle.settle.specs.Settle.{settle_with_deal};
ghost use Rattle.settle.specs.OwnPaths.{own_paths};
ghost use Rattle.settle.specs.Comparing.{entry_with_deal, segment_with_deal};

use crate::strings::{compare_strings, entry_for};
use lent::{Lent, PathNode};
use paths::{Compared, Difference};
use record::ParsedRecord;
use rules::Refusal;

// A lent deal has at most 2^19 nodes of 32 bytes: the path of an entry, from level 1 up, has at most 18 nodes, and that
// of a segment, from level 2 up, at most 17.
const LONGEST_PATHS: usize = 32 * 35;

// The place, the size and the offset are chosen before the check, which asks the deal's commitment: so one pass over
// the deal hashes it once, for its commitment and its own paths.

// An allowed entry place: this one where it is allowed, else the first of the index.
fn allowed_place(size: u64, place: u64) -> u64
    requires { deal_size_allowed size ≡ true }
    ensures { (place_allowed size result ≡ true) × (place_allowed size place ≡ true → result ≡ place) }
{
    let first = sizes::slot_place(size, 0);
    if sizes::place_allowed(size, place) {
        return place;
    }
    first
}

// An allowed segment size: this one where it is allowed, else 1.
fn allowed_size(d: u64, size: u64) -> u64
    requires { deal_size_allowed d ≡ true }
    ensures { (segment_size_allowed d result ≡ true) × (segment_size_allowed d size ≡ true → result ≡ size) }
{
    if sizes::segment_size_allowed(d, size) {
        return size;
    }
    1
}

// An allowed offset for a segment of an allowed size: this one where it is allowed, else 0.
fn allowed_offset(d: u64, offset: u64, size: u64) -> u64
    requires { (deal_size_allowed d ≡ true) × (segment_size_allowed d size ≡ true) }
    ensures { (offset_allowed d result size ≡ true) × (offset_allowed d offset size ≡ true → result ≡ offset) }
{
    if sizes::offset_allowed(d, offset, size) {
        return offset;
    }
    0
}

// Writes the deal's own paths for a segment, whose node is in hand, and for an entry place into `out`: the segment's
// from 0 on, and the entry's behind it. The answer is the deal's commitment.
fn write_own(
    deal: &Lent,
    offset: u64,
    size: u64,
    node: [u8; 32],
    place: u64,
    out: &mut [u8],
) -> [u8; 32]
    requires in_deal { InDeal (length deal.now.bytes.now) place offset size }
    requires node_value { node ≡ (seen deal.now).nodes (segment_level size) (segment_position offset size) }
    requires out_len { length out.old ≡ 1120 }
    ensures { (result ≡ deal_commitment (seen deal.now))
        × (out.new ≡ own_paths (seen deal.now) offset size place out.old) }
{
    let level = sizes::segment_level(size);
    let segment = PathNode {
        position: sizes::segment_position(offset, size) as usize,
        node,
    };
    let end = 32 * (sizes::deal_level(deal.bytes.len() as u64) - level);
    let entry_position = (place / 64) as usize;
    deal.write_paths(level, segment, entry_position, out, 0, end)
}

// Compares the entry strings of an accepted record with those of the deal: the 64 bytes at the entry place, and the
// pairs of nodes above. The deal's own entry path at that place is in hand.
fn compare_deal_entry(deal: &Lent, own_path: &[u8], x: &ParsedRecord<'_>) -> Option<Difference>
    requires { (deal_refusal (seen deal.now) ≡ 0)
        × Accepted (terms_of (seen deal.now) x.now.number) (read_fields x.now)
        × (own_path.now ≡ entry_path_of (seen deal.now) x.now.place) }
    ensures { seen_as result ≡ entry_with_deal (seen deal.now) (read_fields x.now) }
{
    let place = x.place as usize;
    let entry = entry_for(x);
    let own_entry = octets::array_at(deal.bytes, place);
    let below = compare_strings(entry, own_entry);
    let node = node::node_hash(entry);
    let own_node = deal.node_in(x.entry_path.len() / 32, 1, place / 64);
    deal.compare_with_own(1, place / 64, own_node, own_path, node, x.entry_path, below)
        .difference()
}

// Compares the segment strings of an accepted record with those of the deal: the pairs of nodes above the segment. The
// deal's own node over the segment is in hand, and its segment path.
fn compare_deal_segment(
    deal: &Lent,
    own_node: [u8; 32],
    own_path: &[u8],
    x: &ParsedRecord<'_>,
) -> Option<Difference>
    requires { (deal_refusal (seen deal.now) ≡ 0)
        × Accepted (terms_of (seen deal.now) x.now.number) (read_fields x.now)
        × (own_node ≡ (seen deal.now).nodes (segment_level x.now.size) (segment_position x.now.offset x.now.size))
        × (own_path.now ≡ segment_path_of (seen deal.now) x.now.offset x.now.size) }
    ensures { seen_as result ≡ segment_with_deal (seen deal.now) (read_fields x.now) }
{
    let level = sizes::segment_level(x.size);
    let position = sizes::segment_position(x.offset, x.size) as usize;
    deal.compare_with_own(
        level,
        position,
        own_node,
        own_path,
        x.commitment,
        x.segment_path,
        Compared::EQUAL,
    )
    .difference()
}

// Settling over a lent deal that is not refused. The deal's own two paths are written in one pass; they lead to the
// commitment, and for an accepted record they are the ones to compare.
fn settle_in(deal: &Lent, number: u64, record: &[u8]) -> Result<Option<Difference>, Refusal>
    requires { deal_refusal (seen deal.now) ≡ 0 }
    ensures { settled_answer result ≡ settle_with_deal (seen deal.now) number «record».now }
{
    let d = deal.bytes.len() as u64;
    let x = record::parse(record)?;
    let place = allowed_place(d, x.place);
    let size = allowed_size(d, x.size);
    let offset = allowed_offset(d, x.offset, size);
    let node = index::segment_node(deal, offset, size);
    let mut own = [0u8; LONGEST_PATHS];
    let commitment = write_own(deal, offset, size, node, place, &mut own);
    record::check(&commitment, d, number, record)?;
    let middle = x.segment_path.len();
    let end = middle + x.entry_path.len();
    let found = compare_deal_entry(deal, &own[middle..end], &x);
    if found.is_some() {
        return Ok(found);
    }
    Ok(compare_deal_segment(deal, node, &own[..middle], &x))
}

// Settles a record with a deal: 2 for a deal size that is not allowed, 11 for a deal with stray bits, the refusal of
// the check against the deal's own commitment and length and its number, then nothing where no string differs, else the
// two strings at the first difference, which is code 17.
pub fn settle_with_deal(
    deal: &[u8],
    number: u64,
    record: &[u8],
) -> Result<Option<Difference>, Refusal>
    ensures { settled_answer result ≡ settle_with_deal (lent_deal deal.now) number «record».now }
{
    settle_in(&Lent::new(deal, None)?, number, record)
}

// The same with the tree beside the deal: every inner node is taken as it stands there, the deal's commitment, which is
// its last node, included. 12 for a tree of another length than the deal asks comes after 11.
// There are two functions, as in the C interface; `settle_in` does the work of both.
pub fn settle_with_tree(
    deal: &[u8],
    tree: &[u8],
    number: u64,
    record: &[u8],
) -> Result<Option<Difference>, Refusal>
    ensures { settled_answer result ≡ settle_with_deal (tree_deal deal.now tree.now) number «record».now }
{
    settle_in(&Lent::new(deal, Some(tree))?, number, record)
}
