// The refusals that routines over a lent deal start with.
ghost use Rattle.std.specs.Prelude.{◌≡◌, true, length, option_map, IfOk};
ghost use Rattle.rules.specs.Answers.{code_of};
ghost use Rattle.sizes.specs.Sizes.{lent_size_allowed};
ghost use Rattle.lent.specs.LentDeal.{lent_of, tree_fits, deal_refusal};
ghost use Rattle.lent.specs.Seen.{seen};

use crate::Lent;
use rules::Refusal;

// Whether a tree has the length that a deal of this many bytes asks; so it has where none is lent.
pub fn tree_sized(size: usize, tree: Option<&[u8]>) -> bool
    requires { lent_size_allowed size ≡ true }
    ensures { result ≡ tree_fits size (option_map (λ t. t.now) tree.entry) }
{
    match tree {
        Some(tree) => tree.len() == size - 32,
        None => true,
    }
}

impl<'d, 't> Lent<'d, 't> {
    // The deal, with the tree where there is one. 2 for a deal size that is not allowed, 11 for a deal with stray bits,
    // 12 for a tree of another length than the deal asks.
    pub fn new(bytes: &'d [u8], tree: Option<&'t [u8]>) -> Result<Lent<'d, 't>, Refusal>
        ensures code { code_of result ≡ deal_refusal (lent_of bytes.now (option_map (λ t. t.now) tree.entry)) }
        ensures deal { IfOk result (λ deal. seen deal ≡ lent_of bytes.now (option_map (λ t. t.now) tree.entry)) }
    {
        if !sizes::lent_size_allowed(bytes.len()) {
            return Err(Refusal::Size);
        }
        if !stray::no_stray_bits(bytes) {
            return Err(Refusal::StrayBits);
        }
        if !tree_sized(bytes.len(), tree) {
            return Err(Refusal::Output);
        }
        Ok(Lent { bytes, tree })
    }
}
