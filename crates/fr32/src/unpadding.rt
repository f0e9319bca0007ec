// A segment to raw bytes.
ghost use Rattle.std.specs.Prelude.{◌≡◌, ◌+◌, ◌*◌, ◌/◌, ◌%◌, ◌^◌, ◌≤◌, length, take, drop};
ghost use Rattle.octets.specs.Splice.{splice};
ghost use Rattle.fr32.specs.Padding.{segment_length, data_of, unpadded, only_raw_bits};
ghost use Rattle.fr32.specs.Answers.{written_answer, unpad_answer, unpad_output};

use crate::bits::{across, byte_at};
use crate::words::{across_node_words, across_words};
use crate::writing::write;
use crate::{raw_length_allowed, segment_length};
use rules::Refusal;

// Eight data bits of the segment, from bit 8 p on: raw byte p.
fn raw_byte(segment: &[u8], p: usize) -> u8
    requires { p ≤ 8323072 }
    ensures { result
        ≡ data_of ((length segment.now + 31) / 32) segment.now / 2 ^ (8 * p) % 256 }
{
    let bit = 8 * p % 254;
    let at = 32 * (8 * p / 254) + bit / 8;
    let low = byte_at(segment, at);
    let high = byte_at(segment, at + 1);
    let shift = (bit % 8) as u16;
    if bit < 248 {
        return across::<256>(low, high, shift);
    }
    across::<64>(low, high, shift)
}

// Whether the segment has no other bits than those of n raw bytes: no stray bits, and zeros after the last raw bit,
// which are eight at most.
fn only_raw_bits(n: usize, segment: &[u8]) -> bool
    requires { (n ≤ 8323072) × (length segment.now ≡ segment_length n) }
    ensures { result ≡ only_raw_bits n segment.now }
{
    stray::no_stray_bits(segment) && raw_byte(segment, n) == 0
}

// Sixty-four data bits of the segment, from bit 64 w on: word w of the raw bytes. It is no instance of the routine for
// a byte: a byte may lie past the segment's end, a word may not.
fn raw_word(segment: &[u8], w: usize) -> u64
    requires { (w ≤ 1040384)
        × (32 * (64 * w / 254) + 8 * (64 * w % 254 / 64) + 16 ≤ length segment.now) }
    ensures { result
        ≡ data_of ((length segment.now + 31) / 32) segment.now / 2 ^ (64 * w) % 2 ^ 64 }
{
    let bit = 64 * w % 254;
    let at = 32 * (64 * w / 254) + 8 * (bit / 64);
    let low = octets::read_u64(segment, at);
    let high = octets::read_u64(segment, at + 8);
    let shift = (bit % 64) as u64;
    if bit < 192 {
        return across_words(low, high, shift);
    }
    across_node_words(low, high, shift)
}

// Writes the n raw bytes of a segment into the first bytes of `output`: by words, all but the last, and what is left
// byte by byte.
fn write_raw(n: usize, segment: &[u8], output: &mut [u8])
    requires { (n ≤ 8323072) × (length segment.now ≡ segment_length n) × (n ≤ length output.old) }
    ensures { output.new ≡ splice output.old 0 (unpadded n segment.now) }
{
    write(
        output,
        n,
        (n / 8).saturating_sub(1),
        |w| raw_word(segment, w),
        |p| raw_byte(segment, p),
    );
}

// Writes the raw bytes of a segment, as many as the caller names, into the first bytes of `output`, and answers their
// number; the rest of `output` stays. Size: the raw length is not allowed. SegmentLength: the segment has another
// length than that gives. StrayBits: it has stray bits, or bits after the last raw bit. Output: it is shorter than the
// raw bytes. Then nothing is written.
pub fn unpad(raw_length: u64, segment: &[u8], output: &mut [u8]) -> Result<usize, Refusal>
    ensures { (written_answer result ≡ unpad_answer raw_length segment.now output.old)
        × (output.new ≡ unpad_output raw_length segment.now output.old) }
{
    if !raw_length_allowed(raw_length) {
        return Err(Refusal::Size);
    }
    let n = raw_length as usize;
    if segment.len() != segment_length(n) {
        return Err(Refusal::SegmentLength);
    }
    if !only_raw_bits(n, segment) {
        return Err(Refusal::StrayBits);
    }
    if output.len() < n {
        return Err(Refusal::Output);
    }
    write_raw(n, segment, output);
    Ok(n)
}
