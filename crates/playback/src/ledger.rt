// A ledger, and the numbers of it that the rules look at.
ghost use Rattle.std.specs.Prelude.{◌≡◌, true};
ghost use Rattle.sizes.specs.Sizes.{lent_size_allowed, entry_count, index_start};
ghost use Rattle.room.specs.Room.{EndBy};
ghost use Rattle.playback.specs.Ledger.{ledger_ranges};

use crate::{LedgerRow, ROWS};
use clerk_log::{BookingLine, CancellingLine};
use room::{Decision, Range};
use rules::Refusal;

// A ledger for lent deals of one size: a row a slot, for the most slots that a lent deal has. Each row's segment ends
// by the index start.
#[derive(Drop)]
pub(crate) struct Ledger {
    pub(crate) size: u64,
    pub(crate) rows: [LedgerRow; ROWS],
    ghost size_allowed: { lent_size_allowed size ≡ true },
    ghost ends: { EndBy (index_start size) (entry_count size) (ledger_ranges rows) },
}

impl Ledger {
    ghost use Rattle.std.specs.Prelude.{◌≡◌, true, ◌≤◌, length, map};
    ghost use Rattle.rules.specs.Search.{lowest};
    ghost use Rattle.rules.specs.Answers.{code_of};
    ghost use Rattle.room.specs.Decide.{decision_of};
    ghost use Rattle.sizes.specs.Sizes.{segment_size_allowed, place_allowed};
    ghost use Rattle.index.specs.Written.{slot_of};
    ghost use Rattle.playback.specs.Ledger.{empty_ledger, ledger_range, ledger_owners, ledger_decision};
    ghost use Rattle.playback.specs.Ledger.{ledger_cancel_code};
    ghost use Rattle.playback.specs.Steps.{keeps_at};

    // A ledger that holds nothing.
    pub(crate) fn empty(size: u64) -> Ledger
        requires { lent_size_allowed size ≡ true }
        ensures sized { result.size ≡ size }
        ensures rows { result.rows ≡ empty_ledger }
    {
        Ledger {
            size,
            rows: [LedgerRow::vacant(); ROWS],
        }
    }

    // The slots of the deal.
    pub(crate) fn slots(&self) -> usize
        ensures { result ≡ entry_count self.now.size }
    {
        sizes::entry_count(self.size) as usize
    }

    // Which bytes each row's segment takes up. A loop and no `map`, here and below: `map` takes the rows by value, so
    // that all of them would be copied for each line.
    pub(crate) fn ranges(&self) -> [Range; ROWS]
        ensures { result ≡ map ledger_range self.now.rows }
    {
        let mut ranges = [Range { offset: 0, area: 0 }; ROWS];
        for i in 0..ROWS {
            ranges[i] = self.rows[i].range();
        }
        ranges
    }

    // Whose each row is.
    fn owners(&self) -> [u8; ROWS]
        ensures { result ≡ ledger_owners self.now.rows }
    {
        let mut owners = [0; ROWS];
        for i in 0..ROWS {
            owners[i] = self.rows[i].house;
        }
        owners
    }

    // The lowest row that is the house's and for the segment of a line.
    fn keeping(&self, line: &BookingLine) -> Option<usize>
        ensures { result ≡ lowest (keeps_at self.now.rows line.now) 0 (entry_count self.now.size) }
    {
        for i in 0..self.slots() {
            let row = &self.rows[i];
            if row.house == line.house && row.is_for(line) {
                return Some(i);
            }
        }
        None
    }

    // What booking decides. The ranges are handed in, as the answer needs them too.
    pub(crate) fn decide(&self, line: &BookingLine, ranges: &[Range; ROWS]) -> Decision
        requires size_allowed { segment_size_allowed self.now.size line.now.size ≡ true }
        requires of_rows { ranges.now ≡ map ledger_range self.now.rows }
        ensures { decision_of result ≡ ledger_decision self.now.size self.now.rows line.now }
    {
        let held = houses::held_count(&ranges[..self.slots()], &self.owners(), line.house);
        room::decide(
            self.size,
            ranges,
            held,
            sizes::area(line.size),
            self.keeping(line),
        )
    }

    // Whether a cancellation is refused: 6 for a place that is not allowed, 16 where no row of the house is.
    pub(crate) fn cancelling(&self, line: &CancellingLine) -> Result<(), Refusal>
        ensures { code_of result ≡ ledger_cancel_code self.now.size self.now.rows line.now }
    {
        if !sizes::place_allowed(self.size, line.place) {
            return Err(Refusal::Place);
        }
        let row = &self.rows[houses::slot_at(self.size, line.place)];
        if row.is_vacant() || row.house != line.house {
            return Err(Refusal::NotKept);
        }
        Ok(())
    }
}
