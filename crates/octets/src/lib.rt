// Byte strings: equality, copies, little-endian numbers.
#![tactic(auto)]

mod fill; // fill.rt: strings filled with zeros

ghost use Rattle.std.specs.Prelude.{◌≡◌, ◌+◌, ◌≤◌, ◌++◌, length, take, drop, replicate};
ghost use Rattle.octets.specs.Equality.{all_zero};
ghost use Rattle.octets.specs.LittleEndian.{number_of, bytes_of};
ghost use Rattle.octets.specs.Splice.{part, splice};

pub use fill::{last_node, put_filled, same_filled};

// Whether every byte is 0.
pub fn all_zero(a: &[u8]) -> bool
    ensures { result ≡ all_zero a.now }
{
    a.iter().all(|byte| *byte == 0)
}

// Writes the bytes of s into d from a place on. By a loop: with `copy_from_slice` the library for C asks for `memmove`,
// a name that it does without.
pub fn put(d: &mut [u8], at: usize, s: &[u8])
    requires { at + length s.now ≤ length d.old }
    ensures { d.new ≡ splice d.old at s.now }
{
    for i in 0..s.len() {
        d[at + i] = s[i];
    }
}

// Writes an array into d from a place on.
pub fn put_array<const N: usize>(d: &mut [u8], at: usize, array: [u8; N])
    requires { at + N ≤ length d.old }
    ensures { (d.new ≡ splice d.old at array.entry) × (length array.entry ≡ N) }
{
    put(d, at, &array);
}

// The array that starts at a place.
pub fn array_at<const N: usize>(d: &[u8], at: usize) -> [u8; N]
    requires { at + N ≤ length d.now }
    ensures { result ≡ part d.now at N }
{
    let mut array = [0u8; N];
    let end = at + N;
    array.copy_from_slice(&d[at..end]);
    array
}

// Two nodes as one pair.
pub fn join(left: [u8; 32], right: [u8; 32]) -> [u8; 64]
    ensures { result ≡ left ++ right }
{
    let mut pair = [0u8; 64];
    put(&mut pair, 0, &left);
    put(&mut pair, 32, &right);
    pair
}

// The number in the 8 bytes from a place on, the least byte first.
pub fn read_u64(d: &[u8], at: usize) -> u64
    requires { at + 8 ≤ length d.now }
    ensures { result ≡ number_of (part d.now at 8) }
{
    u64::from_le_bytes(array_at(d, at))
}

// Writes a number into the 8 bytes from a place on, the least byte first.
pub fn put_u64(d: &mut [u8], at: usize, v: u64)
    requires { at + 8 ≤ length d.old }
    ensures { d.new ≡ splice d.old at (bytes_of 8 v) }
{
    put_array(d, at, v.to_le_bytes());
}
