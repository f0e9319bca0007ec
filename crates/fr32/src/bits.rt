// Eight bits that lie across two bytes.
ghost use Rattle.std.specs.Prelude.{◌≡◌, ◌+◌, ◌*◌, ◌/◌, ◌%◌, ◌^◌, ◌<◌, ◌≤◌, slice_index};

// The byte at a place, 0 past the end.
pub(crate) fn byte_at(bytes: &[u8], at: usize) -> u8
    ensures { result ≡ slice_index bytes.now at }
{
    if at < bytes.len() { bytes[at] } else { 0 }
}

// Eight bits of two bytes, from bit `shift` of the low one on. The low one counts modulo W: 256, or 64 where it is the
// last of a node and has six data bits.
pub(crate) fn across<const W: u16>(low: u8, high: u8, shift: u16) -> u8
    requires { (0 < W) × (W ≤ 256) × (shift < 8) }
    ensures { result ≡ (low % W + W * high) / 2 ^ shift % 256 }
{
    (((low as u16 % W + W * (high as u16)) >> shift) % 256) as u8
}
