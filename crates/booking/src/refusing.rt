// The refusals of a booking that come before the slots are looked at.
ghost use Rattle.std.specs.Prelude.{◌≡◌, option_map, IfOk};
ghost use Rattle.rules.specs.Answers.{code_of};
ghost use Rattle.rules.specs.Refusals.{first_refusal};
ghost use Rattle.lent.specs.LentDeal.{lent_of};
ghost use Rattle.lent.specs.Seen.{seen};
ghost use Rattle.booking.specs.Booking.{book_rules};

use lent::Lent;
use rules::Refusal;

// The deal, with the tree where there is one, in which a segment may be booked as far as these rules go: 23 for a house
// other than 1 or 2, 2 for a deal size that is not allowed, 23 for a table that has not one byte a slot, 4 for a
// segment size that is not allowed in the deal, 11 for stray bits in either, 12 for a tree of another length than the
// deal asks.
pub(crate) fn open<'d, 't>(
    deal: &'d [u8],
    tree: Option<&'t [u8]>,
    table: &[u8],
    house: u8,
    segment: &[u8],
) -> Result<Lent<'d, 't>, Refusal>
    ensures code { code_of result
        ≡ first_refusal
        (book_rules (lent_of deal.now (option_map (λ t. t.now) tree.entry)) table.now house
        segment.now) }
    ensures deal { IfOk result (λ lent. seen lent ≡ lent_of deal.now (option_map (λ t. t.now) tree.entry)) }
{
    houses::refusal(deal.len(), table, house)?;
    if !sizes::segment_size_allowed(deal.len() as u64, segment.len() as u64) {
        return Err(Refusal::SegmentSize);
    }
    // The deal's bits are looked at before the segment's, and the tree's length after both.
    Lent::new(deal, None)?;
    if !stray::no_stray_bits(segment) {
        return Err(Refusal::StrayBits);
    }
    if !lent::tree_sized(deal.len(), tree) {
        return Err(Refusal::Output);
    }
    Ok(Lent { bytes: deal, tree })
}
