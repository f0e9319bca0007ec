// The rows that come back, and their bytes.
ghost use Rattle.std.specs.Prelude.{◌≡◌, ◌+◌, ◌≤◌, length};
ghost use Rattle.octets.specs.Splice.{splice};
ghost use Rattle.sizes.specs.Sizes.{entry_count};
ghost use Rattle.playback.specs.Playback.{rows_from, with_rows};
ghost use Rattle.playback.specs.Played.{with_standing};
ghost use Rattle.playback.specs.RowBytes.{row_bytes, rows_bytes};

use crate::ledger::Ledger;
use crate::{LedgerRow, ROWS, Standing};

// The bytes of a row.
pub const ROW_BYTES: usize = 57;

// The bytes of all rows of a ledger.
pub const ROWS_BYTES: usize = ROWS * ROW_BYTES;

impl Ledger {
    // The rows that hold something, by rising place.
    pub(crate) fn standing(&self) -> Standing
        ensures { with_standing result ≡ with_rows (rows_from self.now.rows 0 (entry_count self.now.size)) }
    {
        let mut count: usize = 0;
        let mut rows = [LedgerRow::vacant(); ROWS];
        for i in 0..self.slots() {
            let row = self.rows[i];
            if !row.is_vacant() {
                rows[count] = row;
                count += 1;
            }
        }
        Standing { count, rows }
    }
}

// Writes the bytes of a row from a place on: house, commitment, size, offset, entry place.
fn put_row(row: &LedgerRow, out: &mut [u8], at: usize)
    requires { at + 57 ≤ length out.old }
    ensures written { out.new ≡ splice out.old at (row_bytes row.now) }
    ensures sized { length (row_bytes row.now) ≡ 57 }
{
    octets::put(out, at, &[row.house]);
    octets::put_array(out, at + 1, row.commitment);
    octets::put_u64(out, at + 33, row.size);
    octets::put_u64(out, at + 41, row.offset);
    octets::put_u64(out, at + 49, row.place);
}

// Writes the bytes of all rows into an output of that length.
pub fn put_rows(rows: &[LedgerRow; ROWS], out: &mut [u8])
    requires { length out.old ≡ 7296 }
    ensures { out.new ≡ rows_bytes rows.now }
{
    for i in 0..ROWS {
        put_row(&rows[i], out, ROW_BYTES * i);
    }
}
