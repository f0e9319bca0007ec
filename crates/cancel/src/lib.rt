// Cancelling an entry of a house in a deal, with a tree beside the deal or without one.
#![tactic(auto)]

ghost use Rattle.std.specs.Prelude.{◌≡◌, option_map};
ghost use Rattle.rules.specs.Answers.{code_of};
ghost use Rattle.lent.specs.LentDeal.{lent_of, lent_deal, tree_deal};
ghost use Rattle.cancel.specs.Cancel.{cancel_code, cancelled_deal, cancelled_table, cancelled_tree};

use lent::Lent;
use rules::Refusal;

// Refuses to cancel an entry at a place of a deal, with a tree beside it or without one: 23 for a house other than 1 or
// 2, 2 for a deal size that is not allowed, 23 for a table that has not one byte a slot, 11 for a deal with stray bits,
// 12 for a tree of another length than the deal asks, 6 for a place that is not allowed, 16 where no entry of the house
// stands.
fn refusal(
    deal: &[u8],
    tree: Option<&[u8]>,
    table: &[u8],
    house: u8,
    place: u64,
) -> Result<(), Refusal>
    ensures { code_of result
        ≡ cancel_code (lent_of deal.now (option_map (λ t. t.now) tree.entry)) table.now house place }
{
    houses::refusal(deal.len(), table, house)?;
    Lent::new(deal, tree)?;
    let deal_size = deal.len() as u64;
    if !sizes::place_allowed(deal_size, place) {
        return Err(Refusal::Place);
    }
    if index::standing_at(deal, place as usize).is_none()
        || !houses::owns(deal_size, table, house, place)
    {
        return Err(Refusal::NotKept);
    }
    Ok(())
}

// Cancels the entry of a house, 1 or 2, at a place of a lent deal: its 64 bytes and its slot's byte of the table of
// owners are zeros afterwards, and no other byte changes. 23 for another house, 2 for a deal size that is not allowed,
// 23 for a table that has not one byte a slot, 11 for a deal with stray bits, 6 for a place that is not allowed, 16
// where no entry of the house stands; then nothing is written.
pub fn cancel(deal: &mut [u8], table: &mut [u8], house: u8, place: u64) -> Result<(), Refusal>
    ensures value { code_of result ≡ cancel_code (lent_deal deal.old) table.old house place }
    ensures deal_after { deal.new
        ≡ cancelled_deal (lent_deal deal.old) table.old house place }
    ensures table_after { table.new
        ≡ cancelled_table (lent_deal deal.old) table.old house place }
{
    refusal(deal, None, table, house, place)?;
    octets::put_array(deal, place as usize, [0u8; 64]);
    houses::put_owner(deal.len() as u64, table, place, 0);
    Ok(())
}

// The same with a tree beside the deal, whatever it holds: 12 for another length than the deal asks, after 11; where
// the entry is cancelled every node above the 64 bytes is worked out anew from its children as they then stand, and no
// other byte of the tree changes.
// There are two functions, as in the C interface. Of an optional tree to write no clause would say what it holds
// afterwards where there is none.
pub fn cancel_with_tree(
    deal: &mut [u8],
    tree: &mut [u8],
    table: &mut [u8],
    house: u8,
    place: u64,
) -> Result<(), Refusal>
    ensures value { code_of result
        ≡ cancel_code (tree_deal deal.old tree.old) table.old house place }
    ensures deal_after { deal.new
        ≡ cancelled_deal (tree_deal deal.old tree.old) table.old house place }
    ensures tree_after { tree.new
        ≡ cancelled_tree deal.old tree.old table.old house place }
    ensures table_after { table.new
        ≡ cancelled_table (tree_deal deal.old tree.old) table.old house place }
{
    refusal(deal, Some(tree), table, house, place)?;
    octets::put_array(deal, place as usize, [0u8; 64]);
    lent::renew_tree(deal, Some(&mut *tree), place as usize, 64);
    houses::put_owner(deal.len() as u64, table, place, 0);
    Ok(())
}
