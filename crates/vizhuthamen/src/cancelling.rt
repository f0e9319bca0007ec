// Cancelling an entry of a house in a deal, and collecting the segments of a deal in a second one.
ghost use Rattle.std.specs.Prelude.{◌≡◌};
ghost use Rattle.lent.specs.LentDeal.{lent_deal, tree_deal};
ghost use Rattle.cancel.specs.Cancel.{cancel_code, cancelled_deal, cancelled_table, cancelled_tree};
ghost use Rattle.collect.specs.Collect.{collect_code, second_deal, second_owners, second_tree};

// Cancels the entry of a house at a place of a deal.
#[unsafe(no_mangle)]
pub extern "C" fn vz_cancel(deal: &mut [u8], table: &mut [u8], house: u8, place: u64) -> u32
    ensures value { result ≡ cancel_code (lent_deal deal.old) table.old house place }
    ensures deal_after { deal.new
        ≡ cancelled_deal (lent_deal deal.old) table.old house place }
    ensures table_after { table.new
        ≡ cancelled_table (lent_deal deal.old) table.old house place }
{
    rules::code_of(cancel::cancel(deal, table, house, place)) as u32
}

// The same with the tree beside the deal, which is brought up to date.
#[unsafe(no_mangle)]
pub extern "C" fn vz_cancel_with_tree(
    deal: &mut [u8],
    tree: &mut [u8],
    table: &mut [u8],
    house: u8,
    place: u64,
) -> u32
    ensures value { result
        ≡ cancel_code (tree_deal deal.old tree.old) table.old house place }
    ensures deal_after { deal.new
        ≡ cancelled_deal (tree_deal deal.old tree.old) table.old house place }
    ensures tree_after { tree.new
        ≡ cancelled_tree deal.old tree.old table.old house place }
    ensures table_after { table.new
        ≡ cancelled_table (tree_deal deal.old tree.old) table.old house place }
{
    rules::code_of(cancel::cancel_with_tree(deal, tree, table, house, place)) as u32
}

// Collects a deal and its table of owners into second ones of the same lengths.
#[unsafe(no_mangle)]
pub extern "C" fn vz_collect(
    deal: &[u8],
    table: &[u8],
    second: &mut [u8],
    second_table: &mut [u8],
) -> u32
    ensures value { result
        ≡ collect_code deal.now table.now (lent_deal second.old)
        second_table.old }
    ensures second_after { second.new
        ≡ second_deal deal.now table.now (lent_deal second.old)
        second_table.old }
    ensures second_table_after { second_table.new
        ≡ second_owners deal.now table.now (lent_deal second.old)
        second_table.old }
{
    rules::code_of(collect::collect(deal, table, second, second_table)) as u32
}

// The same with the tree beside the second deal, which is filled for it.
#[unsafe(no_mangle)]
pub extern "C" fn vz_collect_with_tree(
    deal: &[u8],
    table: &[u8],
    second: &mut [u8],
    tree: &mut [u8],
    second_table: &mut [u8],
) -> u32
    ensures value { result
        ≡ collect_code deal.now table.now (tree_deal second.old tree.old)
        second_table.old }
    ensures second_after { second.new
        ≡ second_deal deal.now table.now (tree_deal second.old tree.old)
        second_table.old }
    ensures tree_after { tree.new
        ≡ second_tree deal.now table.now second.old tree.old
        second_table.old }
    ensures second_table_after { second_table.new
        ≡ second_owners deal.now table.now (tree_deal second.old tree.old)
        second_table.old }
{
    rules::code_of(collect::collect_with_tree(deal, table, second, tree, second_table)) as u32
}
