// Writing a field: its head, and behind it its content. Each answers the place after what it wrote.
ghost use Rattle.std.specs.Prelude.{◌≡◌, ◌+◌, ◌≤◌, ◌<◌, [], length};
ghost use Rattle.octets.specs.Splice.{splice};
ghost use Rattle.fields.specs.Table.{field_head, put_field};

use crate::FieldRule;

// Writes the head of a field into `out` from a place on: its tag, and the size of its content.
pub fn put_head(out: &mut [u8], at: usize, tag: u8, size: usize) -> usize
    requires { (size < 65536) × (at + 3 ≤ length out.old) }
    ensures { (out.new ≡ splice out.old at (field_head tag size)) × (result ≡ at + 3) }
{
    let [low, high] = (size as u16).to_le_bytes();
    octets::put_array(out, at, [tag, low, high]);
    at + 3
}

// Writes the field of a row of a table, with an array as its content.
pub fn put_field<const N: usize>(
    out: &mut [u8],
    at: usize,
    row: FieldRule,
    content: [u8; N],
) -> usize
    requires { (N < 65536) × (at + 3 + N ≤ length out.old) }
    ensures { (out.new ≡ splice out.old at (put_field row.tag content.entry []))
        × (result ≡ at + 3 + N) × (length content.entry ≡ N) }
{
    let start = put_head(out, at, row.tag, N);
    octets::put_array(out, start, content);
    start + N
}
