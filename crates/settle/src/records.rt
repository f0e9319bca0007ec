// Settling two records.
ghost use Rattle.std.specs.Prelude.{◌≡◌};
ghost use Rattle.record.specs.Check.{deal_terms};
ghost use Rattle.settle.specs.Answers.{settled_answer};
ghost use Rattle.settle.specs.Settle.{settle_records};

use crate::strings::{compare_entries, compare_segments, entry_for};
use paths::Difference;
use rules::Refusal;

// Settles two records against a deal's commitment, its size and its number: the first one's refusal, the second one's,
// 18 for different entry places, then nothing where no string differs, else the two strings at the first difference,
// which is code 17. The segment paths are compared only where the entries are the same: offset and size are the same
// then too.
pub fn settle_records(
    commitment: &[u8],
    size: u64,
    number: u64,
    first: &[u8],
    second: &[u8],
) -> Result<Option<Difference>, Refusal>
    ensures { settled_answer result
        ≡ settle_records (deal_terms commitment.now size number) first.now second.now }
{
    let x = record::accepted(commitment, size, number, first)?;
    let y = record::accepted(commitment, size, number, second)?;
    if x.place != y.place {
        return Err(Refusal::OtherPlace);
    }
    let entry = entry_for(&x);
    let other = entry_for(&y);
    let found = compare_entries(x.place / 64, entry, x.entry_path, other, y.entry_path);
    if found.is_some() {
        return Ok(found);
    }
    let position = sizes::segment_position(x.offset, x.size);
    Ok(compare_segments(
        position,
        x.commitment,
        x.segment_path,
        y.commitment,
        y.segment_path,
    ))
}
