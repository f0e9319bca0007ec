// What a row says.
ghost use Rattle.std.specs.Prelude.{◌≡◌};
ghost use Rattle.playback.specs.Ledger as L;

use crate::LedgerRow;
use clerk_log::BookingLine;
use room::Range;

impl LedgerRow {
    // A row that holds nothing.
    pub(crate) fn vacant() -> LedgerRow
        ensures { result ≡ L.vacant }
    {
        LedgerRow {
            house: 0,
            commitment: [0; 32],
            size: 0,
            offset: 0,
            place: 0,
        }
    }

    // Whether it holds nothing.
    pub(crate) fn is_vacant(&self) -> bool
        ensures { result ≡ L.is_vacant self.now }
    {
        self.size == 0
    }

    // The bytes that its segment takes up; none for a vacant row.
    pub(crate) fn range(&self) -> Range
        ensures { result ≡ L.ledger_range self.now }
    {
        Range {
            offset: self.offset,
            area: if self.is_vacant() {
                0
            } else {
                sizes::area(self.size)
            },
        }
    }

    // Whether it is for the segment of a line: equal size and commitment.
    pub(crate) fn is_for(&self, line: &BookingLine) -> bool
        ensures { result ≡ L.same_segment line.now self.now }
    {
        self.size == line.size && self.commitment == line.commitment
    }
}
