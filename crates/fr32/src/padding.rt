// Raw bytes to a segment.
ghost use Rattle.std.specs.Prelude.{◌≡◌, ◌+◌, ◌*◌, ◌/◌, ◌<◌, ◌≤◌, length, take, drop, slice_index};
ghost use Rattle.octets.specs.LittleEndian.{bytes_of};
ghost use Rattle.octets.specs.Splice.{part, splice};
ghost use Rattle.fr32.specs.Padding.{segment_length, padded};
ghost use Rattle.fr32.specs.Answers.{written_answer, pad_answer, pad_output};

use crate::bits::{across, byte_at};
use crate::words::{LAST_WORD, across_words};
use crate::writing::write;
use crate::{raw_length_allowed, segment_length};
use rules::Refusal;

// Byte q of the segment: the eight data bits from its first on; byte 31 of a node has six.
fn segment_byte(raw: &[u8], q: usize) -> u8
    requires { (length raw.now ≤ 8323072) × (q < segment_length (length raw.now)) }
    ensures { result ≡ slice_index (padded raw.now) q }
{
    let place = q % 32;
    let bit = 254 * (q / 32) + 8 * place;
    let low = byte_at(raw, bit / 8);
    let high = byte_at(raw, bit / 8 + 1);
    let byte = across::<256>(low, high, (bit % 8) as u16);
    if place == 31 {
        return byte % 64;
    }
    byte
}

// Word w of the segment: the 64 data bits from its first on; the last of a node has 62. It is no instance of the
// routine for a byte: a byte may lie past the last raw byte, a word may not.
fn segment_word(raw: &[u8], w: usize) -> u64
    requires { (length raw.now ≤ 8323072) × (w + 1 < 4 * (4 * length raw.now / 127)) }
    ensures { bytes_of 8 result ≡ part (padded raw.now) (8 * w) 8 }
{
    let place = w % 4;
    let bit = 254 * (w / 4) + 64 * place;
    let at = 8 * (bit / 64);
    let low = octets::read_u64(raw, at);
    let high = octets::read_u64(raw, at + 8);
    let word = across_words(low, high, (bit % 64) as u64);
    if place == 3 {
        return word % LAST_WORD;
    }
    word
}

// Writes the segment of raw bytes into the first bytes of `output`: by the words that lie in whole nodes of raw bytes,
// all but the last, and what is left byte by byte.
fn write_segment(raw: &[u8], output: &mut [u8])
    requires { (length raw.now ≤ 8323072) × (segment_length (length raw.now) ≤ length output.old) }
    ensures { output.new ≡ splice output.old 0 (padded raw.now) }
{
    let n = segment_length(raw.len());
    let words = 4 * (4 * raw.len() / 127);
    write(
        output,
        n,
        words.saturating_sub(1),
        |w| segment_word(raw, w),
        |q| segment_byte(raw, q),
    );
}

// Writes the segment of raw bytes into the first bytes of `output`, and answers its length; the rest of `output` stays.
// Size: the raw length is not allowed. Output: it is shorter than the segment. Then nothing is written.
pub fn pad(raw: &[u8], output: &mut [u8]) -> Result<usize, Refusal>
    ensures { (written_answer result ≡ pad_answer raw.now output.old)
        × (output.new ≡ pad_output raw.now output.old) }
{
    if !raw_length_allowed(raw.len() as u64) {
        return Err(Refusal::Size);
    }
    let length = segment_length(raw.len());
    if output.len() < length {
        return Err(Refusal::Output);
    }
    write_segment(raw, output);
    Ok(length)
}
