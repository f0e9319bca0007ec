// The judgement over the fields of a well-formed record.
ghost use Rattle.std.specs.Prelude.{◌≡◌, true, ◌&&◌, ◌*◌, ◌/◌, eqb, length};
ghost use Rattle.octets.specs.Equality.{same_bytes};
ghost use Rattle.rules.specs.Answers.{code_of};
ghost use Rattle.rules.specs.Refusals.{first_refusal};
ghost use Rattle.stray.specs.StrayBits.{no_stray_bits};
ghost use Rattle.paths.specs.Path.{path_root};
ghost use Rattle.sizes.specs.Sizes.{deal_size_allowed, segment_size_allowed, segment_path_levels, entry_path_levels};
ghost use Rattle.record.specs.Form.{parsed};
ghost use Rattle.record.specs.Answers.{read_fields};
ghost use Rattle.record.specs.Check.{deal_terms, judgement};

use crate::ParsedRecord;
use rules::Refusal;

// Whether the paths have the lengths that the record table asks: 32 times log2 (D / A), where A is the area that the
// segment takes, and 32 times log2 (D / 64).
fn paths_sized(d: u64, size: u64, segment_path_length: usize, entry_path_length: usize) -> bool
    requires { (deal_size_allowed d ≡ true) × (segment_size_allowed d size ≡ true) }
    ensures { result ≡ (eqb segment_path_length (32 * segment_path_levels d size)
        && eqb entry_path_length (32 * entry_path_levels d)) }
{
    let level = sizes::deal_level(d);
    segment_path_length == 32 * (level - sizes::segment_level(size))
        && entry_path_length == 32 * (level - 1)
}

// Whether no node of either path has stray bits.
fn paths_clear(segment_path: &[u8], entry_path: &[u8]) -> bool
    ensures { result ≡ (no_stray_bits segment_path.now && no_stray_bits entry_path.now) }
{
    stray::no_stray_bits(segment_path) && stray::no_stray_bits(entry_path)
}

// Whether a path leads from a node at a position to a commitment.
fn leads_to(commitment: &[u8], node: [u8; 32], position: u64, path: &[u8]) -> bool
    ensures { result ≡ same_bytes (path_root (length path.now / 32) node position path.now)
        commitment.now }
{
    let root = paths::path_root(node, position, path);
    root.as_slice() == commitment
}

// The judgement over the fields of a well-formed record: 21, 4 to 8 as numbered, 19, 9, 10.
pub(crate) fn judge(
    commitment: &[u8],
    d: u64,
    number: u64,
    x: &ParsedRecord<'_>,
) -> Result<(), Refusal>
    requires { deal_size_allowed d ≡ true }
    ensures { code_of result ≡ first_refusal (judgement (deal_terms commitment.now d number)
        (parsed (read_fields x.now))) }
{
    if x.number != number {
        return Err(Refusal::DealNumber);
    }
    if !sizes::segment_size_allowed(d, x.size) {
        return Err(Refusal::SegmentSize);
    }
    if !sizes::offset_allowed(d, x.offset, x.size) {
        return Err(Refusal::Offset);
    }
    if !sizes::place_allowed(d, x.place) {
        return Err(Refusal::Place);
    }
    if !paths_sized(d, x.size, x.segment_path.len(), x.entry_path.len()) {
        return Err(Refusal::PathLength);
    }
    if !stray::no_stray_bits(&x.commitment) {
        return Err(Refusal::CommitmentBits);
    }
    if !paths_clear(x.segment_path, x.entry_path) {
        return Err(Refusal::PathBits);
    }
    let position = sizes::segment_position(x.offset, x.size);
    if !leads_to(commitment, x.commitment, position, x.segment_path) {
        return Err(Refusal::SegmentPath);
    }
    let entry = entries::entry_of(x.commitment, x.offset, x.size);
    if !leads_to(
        commitment,
        node::node_hash(entry),
        x.place / 64,
        x.entry_path,
    ) {
        return Err(Refusal::EntryPath);
    }
    Ok(())
}
