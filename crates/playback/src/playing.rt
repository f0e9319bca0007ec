// One line played on a ledger.
ghost use Rattle.std.specs.Prelude.{◌≡◌, true, Ok, Err};
ghost use Rattle.rules.specs.Choice.{choose};
ghost use Rattle.sizes.specs.Sizes.{segment_size_allowed};
ghost use Rattle.clerk_log.specs.Log.{line_allowed};
ghost use Rattle.clerk_log.specs.declared.Line.TheVariants.{Booking as booking, Cancelling as cancelling};
ghost use Rattle.playback.specs.Ledger.{ledger_after};
ghost use Rattle.playback.specs.Playback.{ruling, confirms};

use crate::LedgerRow;
use crate::ledger::Ledger;
use clerk_log::{BookingLine, CancellingLine, Line};
use room::{Booked, Decision};

impl Ledger {
    // Plays a line for a booking: the row for it is added where its answer is what the rules give; else the ledger
    // stays, and what they give comes back.
    fn book(&mut self, line: &BookingLine) -> Result<(), Booked>
        requires { segment_size_allowed self.old.size line.now.size ≡ true }
        ensures sized { self.new.size ≡ self.old.size }
        ensures answer { result
            ≡ choose (confirms self.old.size self.old.rows (booking line.now)) (Ok tt)
            (Err (ruling self.old.size self.old.rows (booking line.now))) }
        ensures rows { self.new.rows
            ≡ choose (confirms self.old.size self.old.rows (booking line.now))
            (ledger_after self.old.size self.old.rows (booking line.now)) self.old.rows }
    {
        let ranges = self.ranges();
        let decision = self.decide(line, &ranges);
        let ruling = room::booked_of(room::answer(self.size, &ranges, decision));
        if ruling != line.answer {
            return Err(ruling);
        }
        if let Decision::Place(slot, offset) = decision {
            self.rows[slot] = LedgerRow {
                house: line.house,
                commitment: line.commitment,
                size: line.size,
                offset,
                place: sizes::slot_place(self.size, slot as u64),
            };
        }
        Ok(())
    }

    // The same for a cancellation, without whose row the ledger is then.
    fn cancel(&mut self, line: &CancellingLine) -> Result<(), Booked>
        ensures sized { self.new.size ≡ self.old.size }
        ensures answer { result
            ≡ choose (confirms self.old.size self.old.rows (cancelling line.now)) (Ok tt)
            (Err (ruling self.old.size self.old.rows (cancelling line.now))) }
        ensures rows { self.new.rows
            ≡ choose (confirms self.old.size self.old.rows (cancelling line.now))
            (ledger_after self.old.size self.old.rows (cancelling line.now)) self.old.rows }
    {
        let code = rules::code_of(self.cancelling(line));
        if code != line.code {
            return Err(Booked {
                code,
                offset: 0,
                place: 0,
            });
        }
        if code == 0 {
            self.rows[houses::slot_at(self.size, line.place)] = LedgerRow::vacant();
        }
        Ok(())
    }

    // The same for a line of either kind.
    pub(crate) fn play(&mut self, line: &Line) -> Result<(), Booked>
        requires { line_allowed self.old.size line.now ≡ true }
        ensures sized { self.new.size ≡ self.old.size }
        ensures answer { result
            ≡ choose (confirms self.old.size self.old.rows line.now) (Ok tt)
            (Err (ruling self.old.size self.old.rows line.now)) }
        ensures rows { self.new.rows
            ≡ choose (confirms self.old.size self.old.rows line.now)
            (ledger_after self.old.size self.old.rows line.now) self.old.rows }
    {
        match line {
            Line::Booking(line) => self.book(line),
            Line::Cancelling(line) => self.cancel(line),
        }
    }
}
