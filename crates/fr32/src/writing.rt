// Writing a string of which each word and each byte can be worked out.
ghost use Rattle.std.specs.Prelude.{◌≡◌, ℕ, List, ◌*◌, ◌<◌, ◌≤◌, length};
ghost use Rattle.octets.specs.Splice.{splice};
ghost use Rattle.fr32.specs.Writing.{GivesWords, GivesBytes};

// Writes the n bytes of a string into the first bytes of `output`: the first words as `word` gives them, and what is
// left byte by byte, as `byte` does.
pub(crate) fn write<W: Fn(usize) -> u64, B: Fn(usize) -> u8>(
    output: &mut [u8],
    n: usize,
    words: usize,
    word: W,
    byte: B,
)
    requires sized { (8 * words ≤ n) × (n ≤ length output.old) }
    requires may_be_called { ((w : ℕ) → w < words → W.pre word w) × ((q : ℕ) → q < n → B.pre byte q) }
    ensures { (s : List ℕ) → length s ≡ n → GivesWords (W.post word) words s → GivesBytes (B.post byte) n s
        → output.new ≡ splice output.old 0 s }
{
    for w in 0..words {
        octets::put_u64(output, 8 * w, word(w));
    }
    for q in 8 * words..n {
        output[q] = byte(q);
    }
}
