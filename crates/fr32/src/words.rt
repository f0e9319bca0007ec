// Sixty-four bits that lie across two words of eight bytes.
ghost use Rattle.std.specs.Prelude.{◌≡◌, ◌<◌};
ghost use Rattle.fr32.specs.Words.{across_words, across_nodes};

pub(crate) const LAST_WORD: u64 = 4611686018427387904; // 2^62: the last word of a node has 62 data bits

// Sixty-four bits of two words, from bit `shift` of the low one on.
pub(crate) fn across_words(low: u64, high: u64, shift: u64) -> u64
    requires { shift < 64 }
    ensures { result ≡ across_words low high shift }
{
    if shift == 0 {
        return low;
    }
    (low >> shift).wrapping_add(high << (64 - shift))
}

// The same where the low word is the last of a node. It has no const parameter in common with `across_words`, as
// `across` has: 2^62 * high and 2^64 * high need more than 64 bits, so each puts its words together in its own way.
pub(crate) fn across_node_words(low: u64, high: u64, shift: u64) -> u64
    requires { shift < 64 }
    ensures { result ≡ across_nodes low high shift }
{
    across_words(low % LAST_WORD + LAST_WORD * (high % 4), high / 4, shift)
}
