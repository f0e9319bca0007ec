// Settling two records, or a record with a deal.
ghost use Rattle.std.specs.Prelude.{◌≡◌};
ghost use Rattle.record.specs.Check.{deal_terms};
ghost use Rattle.lent.specs.LentDeal.{lent_deal, tree_deal};
ghost use Rattle.settle.specs.Settle.{settle_records, settle_with_deal};
ghost use Rattle.settle.specs.Answers.{settled_answer};
ghost use Rattle.vizhuthamen.specs.Export.{lent_pair_code, lent_output_or};

use crate::output::WRONG_LENGTH;
use paths::Difference;
use rules::Refusal;

// The code where two strings are a proof against a sealed segment.
const DIFFERENT: u32 = 17;

// What is written where nothing differs.
const NO_DIFFERENCE: Difference = Difference {
    left: [0; 64],
    right: [0; 64],
};

// Writes the two strings of an answer where both outputs have their one length, and gives the code.
fn write_settled(
    settled: Result<Option<Difference>, Refusal>,
    left: &mut [u8],
    right: &mut [u8],
) -> u32
    ensures value { result ≡ lent_pair_code left.old right.old (settled_answer settled).code }
    ensures left_after { left.new
        ≡ lent_output_or 17 result (settled_answer settled).left left.old }
    ensures right_after { right.new
        ≡ lent_output_or 17 result (settled_answer settled).right right.old }
{
    if left.len() != 64 {
        return WRONG_LENGTH;
    }
    if right.len() != 64 {
        return WRONG_LENGTH;
    }
    let (strings, code) = match settled {
        Ok(None) => (NO_DIFFERENCE, 0),
        Ok(Some(difference)) => (difference, DIFFERENT),
        Err(refusal) => return refusal.code() as u32,
    };
    left.copy_from_slice(&strings.left);
    right.copy_from_slice(&strings.right);
    code
}

// Settles two records for one deal commitment, size and number.
#[unsafe(no_mangle)]
pub extern "C" fn vz_settle_records(
    commitment: &[u8],
    size: u64,
    number: u64,
    first: &[u8],
    second: &[u8],
    left: &mut [u8],
    right: &mut [u8],
) -> u32
    ensures value { result ≡ lent_pair_code left.old right.old
        (settle_records (deal_terms commitment.now size number) first.now
        second.now).code }
    ensures left_after { left.new ≡ lent_output_or 17 result
        (settle_records (deal_terms commitment.now size number) first.now
        second.now).left left.old }
    ensures right_after { right.new ≡ lent_output_or 17 result
        (settle_records (deal_terms commitment.now size number) first.now
        second.now).right right.old }
{
    let settled = settle::settle_records(commitment, size, number, first, second);
    write_settled(settled, left, right)
}

// Settles a record with a deal and its number.
#[unsafe(no_mangle)]
pub extern "C" fn vz_settle_with_deal(
    deal: &[u8],
    number: u64,
    record: &[u8],
    left: &mut [u8],
    right: &mut [u8],
) -> u32
    ensures value { result ≡ lent_pair_code left.old right.old
        (settle_with_deal (lent_deal deal.now) number «record».now).code }
    ensures left_after { left.new ≡ lent_output_or 17 result
        (settle_with_deal (lent_deal deal.now) number «record».now).left left.old }
    ensures right_after { right.new ≡ lent_output_or 17 result
        (settle_with_deal (lent_deal deal.now) number «record».now).right right.old }
{
    write_settled(settle::settle_with_deal(deal, number, record), left, right)
}

// The same with the tree beside the deal.
#[unsafe(no_mangle)]
pub extern "C" fn vz_settle_with_tree(
    deal: &[u8],
    tree: &[u8],
    number: u64,
    record: &[u8],
    left: &mut [u8],
    right: &mut [u8],
) -> u32
    ensures value { result ≡ lent_pair_code left.old right.old
        (settle_with_deal (tree_deal deal.now tree.now) number «record».now).code }
    ensures left_after { left.new ≡ lent_output_or 17 result
        (settle_with_deal (tree_deal deal.now tree.now) number «record».now).left
        left.old }
    ensures right_after { right.new ≡ lent_output_or 17 result
        (settle_with_deal (tree_deal deal.now tree.now) number «record».now).right
        right.old }
{
    let settled = settle::settle_with_tree(deal, tree, number, record);
    write_settled(settled, left, right)
}
