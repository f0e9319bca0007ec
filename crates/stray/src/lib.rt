// Stray bits: bits 7 and 6 of byte 31 of a node.
#![tactic(auto)]

ghost use Rattle.std.specs.Prelude.{◌≡◌};
ghost use Rattle.stray.specs.StrayBits.{no_stray_bits};

// The least byte 31 of a node with stray bits.
const LEAST_STRAY: u8 = 64;

// Whether no whole node of a run has stray bits.
pub fn no_stray_bits(run: &[u8]) -> bool
    ensures { result ≡ no_stray_bits run.now }
{
    for i in 0..run.len() / 32 {
        if LEAST_STRAY <= run[i * 32 + 31] {
            return false;
        }
    }
    true
}
