// The form of a whole log: lines and nothing else, each of which may stand in the log of a deal of this size.
ghost use Rattle.std.specs.Prelude.{◌≡◌};
ghost use Rattle.clerk_log.specs.Log.{booking_logged, cancelling_logged, booking_allowed, cancelling_allowed};
ghost use Rattle.clerk_log.specs.Log.{line_allowed, log_lines};
ghost use Rattle.clerk_log.specs.LineAt.{is_log};

use crate::reading::first_line;
use crate::{BookingLine, CancellingLine, Line};

// Whether a booking with this code gets a line.
fn booking_logged(code: u8) -> bool
    ensures { result ≡ booking_logged code }
{
    matches!(code, 0 | 13 | 14 | 15 | 22)
}

// Whether a cancellation with this code gets a line.
fn cancelling_logged(code: u8) -> bool
    ensures { result ≡ cancelling_logged code }
{
    matches!(code, 0 | 16)
}

impl BookingLine {
    // Whether the line may stand in the log of a deal of this size.
    fn is_allowed(&self, size: u64) -> bool
        ensures { result ≡ booking_allowed size self.now }
    {
        houses::house_allowed(self.house)
            && sizes::segment_size_allowed(size, self.size)
            && booking_logged(self.answer.code)
    }
}

impl CancellingLine {
    // Whether the line may stand in a log.
    fn is_allowed(&self) -> bool
        ensures { result ≡ cancelling_allowed self.now }
    {
        houses::house_allowed(self.house) && cancelling_logged(self.code)
    }
}

impl Line {
    // Whether the line may stand in the log of a deal of this size.
    fn is_allowed(&self, size: u64) -> bool
        ensures { result ≡ line_allowed size self.now }
    {
        match self {
            Line::Booking(line) => line.is_allowed(size),
            Line::Cancelling(line) => line.is_allowed(),
        }
    }
}

// Whether a log is in form for a deal of this size: one line behind another, each of which may stand there, and nothing
// after them. An empty log is in form.
pub fn in_form(size: u64, log: &[u8]) -> bool
    ensures { result ≡ is_log (log_lines size log.now) }
{
    let mut rest = log;
    // A line takes up 13 or 61 bytes, so that no iterator of the library hands out lines.
    while !rest.is_empty() {
        let Some((line, later)) = first_line(rest) else {
            return false;
        };
        if !line.is_allowed(size) {
            return false;
        }
        rest = later;
    }
    true
}
