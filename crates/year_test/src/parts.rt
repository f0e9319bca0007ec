// Parts of buffers.
ghost use Rattle.std.specs.Prelude.{◌≡◌, ◌-◌, length, take};
ghost use Rattle.rules.specs.Choice.{choose};

// The buffers of a year: a deal with its tree and its table of owners, and second ones to collect into.
#[derive(Drop)]
pub(crate) struct Buffers<'a> {
    pub(crate) deal: &'a mut [u8],
    pub(crate) tree: &'a mut [u8],
    pub(crate) table: &'a mut [u8],
    pub(crate) second: &'a mut [u8],
    pub(crate) second_tree: &'a mut [u8],
    pub(crate) second_table: &'a mut [u8],
}

// So many bytes from an offset on; none where they would go beyond the last.
pub(crate) fn part(bytes: &[u8], offset: u64, size: u64) -> &[u8] {
    let total = bytes.len() as u64;
    if total < size {
        return &bytes[..0];
    }
    if total - size < offset {
        return &bytes[..0];
    }
    let start = offset as usize;
    let end = start + size as usize;
    &bytes[start..end]
}

// What a call is lent of a buffer: all of it, or all but its last byte.
pub(crate) fn lent(bytes: &mut [u8], short: bool) -> &mut [u8]
    ensures { result.now ≡ take (length bytes.old - choose short 1 0) bytes.old }
{
    let end = if short {
        bytes.len().saturating_sub(1)
    } else {
        bytes.len()
    };
    &mut bytes[..end]
}
