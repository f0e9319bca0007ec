// Fr32 padding: raw bytes to a segment and back.
#![tactic(auto)]

mod bits; // bits.rt: eight bits across two bytes
mod padding; // padding.rt: raw bytes to a segment
mod unpadding; // unpadding.rt: a segment to raw bytes
mod words; // words.rt: sixty-four bits across two words
mod writing; // writing.rt: a string written by its words and bytes

ghost use Rattle.std.specs.Prelude.{◌≡◌, ◌≤◌};
ghost use Rattle.fr32.specs.Padding.{raw_length_allowed, segment_length};

pub use padding::pad;
pub use unpadding::unpad;

// Its segment has 2^23 bytes. Seven contracts ask this one bound of one number: a type for it would be made and taken
// apart at every call.
const LARGEST_RAW: u64 = 8323072;

// Whether an archive may have n raw bytes.
fn raw_length_allowed(n: u64) -> bool
    ensures { result ≡ raw_length_allowed n }
{
    1 <= n && n <= LARGEST_RAW
}

// The length of the segment for n raw bytes: n * 128 / 127, rounded up.
fn segment_length(n: usize) -> usize
    requires { n ≤ 8323072 }
    ensures { result ≡ segment_length n }
{
    (n * 128 + 126) / 127
}
