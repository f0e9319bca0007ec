// Collection: a deal's standing segments packed from 0 in a second deal, with a tree beside that or without one, and
// their owners in a second table.
#![tactic(auto)]

mod moving; // moving.rt: areas and entries written into the new deal, owners into the new table

ghost use Rattle.std.specs.Prelude.{◌≡◌, true, length, option_map};
ghost use Rattle.rules.specs.Answers.{code_of};
ghost use Rattle.lent.specs.LentDeal.{lent_of, lent_deal, tree_deal};
ghost use Rattle.houses.specs.Houses.{table_sized};
ghost use Rattle.collect.specs.Collect.{collect_code, collected_deal, collected_table};
ghost use Rattle.collect.specs.Collect.{second_deal, second_owners, second_tree};
ghost use Rattle.collect.specs.Collectable.{Movable};

use moving::Source;
use rules::Refusal;

// The refusals of collection: 2, 23 for either table, 12 for the second deal, 11, 12 for the tree beside it, where
// there is one, 20.
fn refusal(
    deal: &[u8],
    table: &[u8],
    second: &[u8],
    tree: Option<&[u8]>,
    second_table: &[u8],
) -> Result<(), Refusal>
    ensures { code_of result
        ≡ collect_code deal.now table.now
        (lent_of second.now (option_map (λ t. t.now) tree.entry)) second_table.now }
{
    if !sizes::lent_size_allowed(deal.len()) {
        return Err(Refusal::Size);
    }
    if !houses::table_sized(deal.len(), table) {
        return Err(Refusal::House);
    }
    if !houses::table_sized(deal.len(), second_table) {
        return Err(Refusal::House);
    }
    if second.len() != deal.len() {
        return Err(Refusal::Output);
    }
    if !stray::no_stray_bits(deal) {
        return Err(Refusal::StrayBits);
    }
    if !lent::tree_sized(second.len(), tree) {
        return Err(Refusal::Output);
    }
    let ranges = ranges::gather(deal);
    if !packing::none_overlaps(&ranges[..table.len()]) {
        return Err(Refusal::Overlap);
    }
    Ok(())
}

// Writes the new deal and the new table over whatever the second ones hold.
fn write_new(deal: &[u8], table: &[u8], second: &mut [u8], second_table: &mut [u8])
    requires { Movable deal.now table.now second.old second_table.old }
    ensures deal_written { second.new ≡ collected_deal deal.now }
    ensures table_written { second_table.new ≡ collected_table deal.now table.now }
{
    let ranges = ranges::gather(deal);
    let source = Source {
        deal,
        ranges: &ranges[..table.len()],
    };
    source.write_deal(second);
    source.write_table(table, second_table);
}

// Collects a lent deal into a second buffer: the standing segments, all bytes of their areas, by falling area and equal
// ones by old offset, packed from 0; their entries, with the commitment and the size as they were, from the first slot
// on in that order; all else zero. The second table gets each moved entry's byte, as it was, for its new slot, and
// zeros after them. The deal and its table are only read. 2 for a deal size that is not allowed, 23 for a table that
// has not one byte a slot, 12 for a second buffer of another length, 11 for a deal with stray bits, 20 where two
// standing entries overlap; then nothing is written.
pub fn collect(
    deal: &[u8],
    table: &[u8],
    second: &mut [u8],
    second_table: &mut [u8],
) -> Result<(), Refusal>
    ensures value { code_of result
        ≡ collect_code deal.now table.now (lent_deal second.old)
        second_table.old }
    ensures second_after { second.new
        ≡ second_deal deal.now table.now (lent_deal second.old)
        second_table.old }
    ensures second_table_after { second_table.new
        ≡ second_owners deal.now table.now (lent_deal second.old)
        second_table.old }
{
    refusal(deal, table, second, None, second_table)?;
    write_new(deal, table, second, second_table);
    Ok(())
}

// The same with a tree beside the second deal, which is left filled for it, whatever it held: 12 for a tree of another
// length than the deal asks, after 11.
// There are two functions, as in the C interface. Of an optional tree to write no clause would say what it holds
// afterwards where there is none.
pub fn collect_with_tree(
    deal: &[u8],
    table: &[u8],
    second: &mut [u8],
    tree: &mut [u8],
    second_table: &mut [u8],
) -> Result<(), Refusal>
    ensures value { code_of result
        ≡ collect_code deal.now table.now (tree_deal second.old tree.old)
        second_table.old }
    ensures second_after { second.new
        ≡ second_deal deal.now table.now (tree_deal second.old tree.old)
        second_table.old }
    ensures tree_after { tree.new
        ≡ second_tree deal.now table.now second.old tree.old
        second_table.old }
    ensures second_table_after { second_table.new
        ≡ second_owners deal.now table.now (tree_deal second.old tree.old)
        second_table.old }
{
    refusal(deal, table, second, Some(tree), second_table)?;
    write_new(deal, table, second, second_table);
    tree::fill(second, tree, sizes::deal_level(second.len() as u64));
    Ok(())
}
