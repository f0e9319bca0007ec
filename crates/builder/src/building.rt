// Building the record for the kept entry at a place of a lent deal, with a tree beside it or without one.
ghost use Rattle.std.specs.Prelude.{◌≡◌};
ghost use Rattle.lent.specs.LentDeal.{lent_deal, tree_deal, deal_refusal};
ghost use Rattle.lent.specs.Seen.{seen};
ghost use Rattle.builder.specs.Build.{length_answer, build_answer, build_output};

use crate::writing::{record_length, write_record};
use lent::Lent;
use rules::Refusal;

// Building over a lent deal that is not refused.
fn build_in(deal: &Lent, number: u64, place: u64, out: &mut [u8]) -> Result<usize, Refusal>
    requires { deal_refusal (seen deal.now) ≡ 0 }
    ensures { (length_answer result ≡ build_answer (seen deal.now) number place out.old)
        × (out.new ≡ build_output (seen deal.now) number place out.old) }
{
    let deal_size = deal.bytes.len() as u64;
    if !sizes::place_allowed(deal_size, place) {
        return Err(Refusal::Place);
    }
    let Some(entry) = index::kept_at(deal, place as usize) else {
        return Err(Refusal::NotKept);
    };
    let length = record_length(deal_size, entry.size);
    if out.len() < length {
        return Err(Refusal::Output);
    }
    write_record(deal, number, entry, place, out);
    Ok(length)
}

// Writes the record for the kept entry at a place of a lent deal with a number into the first bytes of `out`, and
// answers its length; the rest of `out` stays. 2 for a deal size that is not allowed, 11 for a deal with stray bits, 6
// for a place that is not allowed, 16 for no kept entry there, 12 for an output shorter than the record: then nothing
// is written.
pub fn build(deal: &[u8], number: u64, place: u64, out: &mut [u8]) -> Result<usize, Refusal>
    ensures { (length_answer result ≡ build_answer (lent_deal deal.now) number place out.old)
        × (out.new ≡ build_output (lent_deal deal.now) number place out.old) }
{
    build_in(&Lent::new(deal, None)?, number, place, out)
}

// The same with the tree beside the deal: every inner node is taken as it stands there, the node that the test for kept
// reads included. 12 for a tree of another length than the deal asks comes after 11.
// There are two functions, as in the C interface; `build_in` does the work of both.
pub fn build_with_tree(
    deal: &[u8],
    tree: &[u8],
    number: u64,
    place: u64,
    out: &mut [u8],
) -> Result<usize, Refusal>
    ensures { (length_answer result
        ≡ build_answer (tree_deal deal.now tree.now) number place out.old)
        × (out.new
        ≡ build_output (tree_deal deal.now tree.now) number place out.old) }
{
    build_in(&Lent::new(deal, Some(tree))?, number, place, out)
}
