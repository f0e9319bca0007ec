// The state as bytes, for a program in another language to keep.
ghost use Rattle.std.specs.Prelude.{◌≡◌, length};
ghost use Rattle.stream.specs.Packed.{packed_length, packed, unpacked};

use crate::{Stream, WAITING};

// The number of bytes of a packed state.
pub const STATE_LENGTH: usize = 48 + WAITING;

// The state in bytes, whatever they hold. No From or TryFrom: the first cannot ask for the length, and the second would
// fail where this cannot.
pub fn unpack(bytes: &[u8]) -> Stream
    requires { length bytes.now ≡ packed_length }
    ensures { result ≡ unpacked bytes.now }
{
    Stream {
        code: bytes[8],
        count: octets::read_u64(bytes, 0),
        partial: octets::array_at(bytes, 16),
        waiting: octets::array_at(bytes, 48),
    }
}

// Writes a state as bytes.
pub fn pack(state: Stream, bytes: &mut [u8])
    requires { length bytes.old ≡ packed_length }
    ensures { bytes.new ≡ packed state }
{
    octets::put_u64(bytes, 0, state.count);
    octets::put_array(bytes, 8, [state.code, 0, 0, 0, 0, 0, 0, 0]);
    octets::put_array(bytes, 16, state.partial);
    octets::put_array(bytes, 48, state.waiting);
}
