// Forms for one block at a time, where each round waits for the one before it: fewer steps from a word to the next, or
// fewer operations. Lanes that stand side by side are faster with the forms of words.rt and block.rt.
ghost use Rattle.std.specs.Prelude.{◌≡◌};
ghost use Rattle.sha256.specs.Fips as F;

use crate::block::Round;
use crate::words::{big_sigma0, big_sigma1, ch};

// Rotations by 7 and 18, and a shift by 3: a rotation by 11, and one by 7 of the two together.
fn small_sigma0(x: u32) -> u32
    ensures { result ≡ F.σ0 x }
{
    (x ^ x.rotate_right(11)).rotate_right(7) ^ (x >> 3)
}

// Rotations by 17 and 19, and a shift by 10: a rotation by 2, and one by 17 of the two together.
fn small_sigma1(x: u32) -> u32
    ensures { result ≡ F.σ1 x }
{
    (x ^ x.rotate_right(2)).rotate_right(17) ^ (x >> 10)
}

// The bit that at least two of the three have, as a sum: where y and z differ that of x, else theirs.
fn maj(x: u32, y: u32, z: u32) -> u32
    ensures { result ≡ F.maj x y z }
{
    (x & (y ^ z)).wrapping_add(y & z)
}

// The form in which the next e is summed first, with d among its parts from the start; T1 is what is left without d.
pub struct Chained;

impl Round for Chained {
    fn round(s: [u32; 8], k: u32, w: u32) -> [u32; 8] {
        let [a, b, c, d, e, f, g, h] = s;
        let early = d.wrapping_add(h).wrapping_add(k).wrapping_add(w);
        let next_e = early.wrapping_add(ch(e, f, g)).wrapping_add(big_sigma1(e));
        let t1 = next_e.wrapping_sub(d);
        let next_a = t1.wrapping_add(maj(a, b, c)).wrapping_add(big_sigma0(a));
        [next_a, a, b, c, next_e, e, f, g]
    }

    // The same words as in `Plain`, over other sigmas: those of this file.
    fn next_word(w2: u32, w7: u32, w15: u32, w16: u32) -> u32 {
        small_sigma1(w2)
            .wrapping_add(w7)
            .wrapping_add(small_sigma0(w15))
            .wrapping_add(w16)
    }
}
