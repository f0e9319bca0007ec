// Strings filled with zeros.
ghost use Rattle.std.specs.Prelude.{◌≡◌, ◌+◌, ◌≤◌, length};
ghost use Rattle.octets.specs.Equality.{same_bytes};
ghost use Rattle.octets.specs.Splice.{part, splice};
ghost use Rattle.octets.specs.Fill.{zero_filled};

use crate::{all_zero, put};

// Writes the bytes of s into d from a place on, and zeros after them, n bytes in all.
pub fn put_filled(d: &mut [u8], at: usize, s: &[u8], n: usize)
    requires { (length s.now ≤ n) × (at + n ≤ length d.old) }
    ensures { d.new ≡ splice d.old at (zero_filled n s.now) }
{
    let start = at + s.len();
    let end = at + n;
    put(d, at, s);
    d[start..end].fill(0);
}

// Whether the bytes of s stand in d at a place, and zeros after them, n bytes in all.
pub fn same_filled(d: &[u8], at: usize, s: &[u8], n: usize) -> bool
    requires { (length s.now ≤ n) × (at + n ≤ length d.now) }
    ensures { result ≡ same_bytes (part d.now at n) (zero_filled n s.now) }
{
    let start = at + s.len();
    let end = at + n;
    &d[at..start] == s && all_zero(&d[start..end])
}

// The node that starts at a place, the last of the string: its bytes, and zeros after them.
pub fn last_node(d: &[u8], at: usize) -> [u8; 32]
    requires { (at ≤ length d.now) × (length d.now ≤ at + 32) }
    ensures { result ≡ part (zero_filled (at + 32) d.now) at 32 }
{
    let mut node = [0u8; 32];
    let end = d.len();
    put(&mut node, 0, &d[at..end]);
    node
}
