// Filling the tree beside a lent deal, and bringing it up to date.
ghost use Rattle.std.specs.Prelude.{◌≡◌, ◌+◌, ◌≤◌, ◌<◌, length, option_map};
ghost use Rattle.rules.specs.Answers.{code_of};
ghost use Rattle.lent.specs.LentDeal.{lent_of, tree_deal, deal_refusal};
ghost use Rattle.lent.specs.Usable.{Usable};
ghost use Rattle.lent.specs.FilledTree.{filled_tree};
ghost use Rattle.lent.specs.RenewedTree.{IsRenewed};

use crate::Lent;
use rules::Refusal;

// Fills the tree beside a lent deal with every inner node of the deal's tree. 2 for a deal size that is not allowed, 11
// for a deal with stray bits, 12 for a tree of another length than the deal asks: then nothing is written.
pub fn fill_tree(deal: &[u8], tree: &mut [u8]) -> Result<(), Refusal>
    ensures value { code_of result ≡ deal_refusal (tree_deal deal.now tree.old) }
    ensures tree_after { tree.new ≡ filled_tree deal.now tree.old }
{
    Lent::new(deal, Some(tree))?;
    tree::fill(deal, tree, sizes::deal_level(deal.len() as u64));
    Ok(())
}

// Brings the tree beside a lent deal up to date, where there is one, after `len` bytes of the deal were written from a
// place on. It takes no `Lent`: the tree is written, and a `Lent` only reads its tree.
pub fn renew_tree(deal: &[u8], tree: Option<&mut [u8]>, from: usize, len: usize)
    requires usable { Usable (lent_of deal.now (option_map (λ t. t.now) tree)) }
    requires len_nonzero { (0 < len) × (from + len ≤ length deal.now) }
    ensures { IsRenewed deal.now from len tree.entry tree.exit }
{
    if let Some(tree) = tree {
        tree::renew(deal, tree, sizes::deal_level(deal.len() as u64), from, len);
    }
}
