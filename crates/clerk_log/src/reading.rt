// The line at a place of a log, and the one at its front.
ghost use Rattle.std.specs.Prelude.{◌≡◌, ◌+◌, ◌≤◌, length};
ghost use Rattle.rules.specs.Answers.{code_of};
ghost use Rattle.octets.specs.Splice.{part};
ghost use Rattle.fields.specs.FieldAt.{field_answer, field_code};
ghost use Rattle.clerk_log.specs.Log.{booking_in, cancelling_in, first_line};
ghost use Rattle.clerk_log.specs.LineAt.{line_field, first_seen};

use crate::{BOOKING, BookingLine, CANCELLING, CancellingLine, Line};
use fields::{Field, FieldRule, LengthRule};
use room::Booked;
use rules::Refusal;

// The fields of the two kinds of lines.
const BOOKING_FIELD: FieldRule = FieldRule {
    tag: BOOKING,
    length: LengthRule::Exactly(58),
};

const CANCELLING_FIELD: FieldRule = FieldRule {
    tag: CANCELLING,
    length: LengthRule::Exactly(10),
};

// The field of the line at any place; the refusal, code 3, where no line stands there.
pub fn line_field(log: &[u8], at: usize) -> Result<Field, Refusal>
    ensures { (field_answer result ≡ line_field log.now at)
        × (code_of result ≡ field_code (line_field log.now at)) }
{
    if let Ok(field) = fields::field_for(log, at, BOOKING_FIELD) {
        return Ok(field);
    }
    fields::field_for(log, at, CANCELLING_FIELD)
}

// The line for a booking whose content starts at a place.
pub fn booking_at(log: &[u8], start: usize) -> BookingLine
    requires { start + 58 ≤ length log.now }
    ensures { result ≡ booking_in (part log.now start 58) }
{
    BookingLine {
        house: log[start],
        commitment: octets::array_at(log, start + 1),
        size: octets::read_u64(log, start + 33),
        answer: Booked {
            code: log[start + 41],
            offset: octets::read_u64(log, start + 42),
            place: octets::read_u64(log, start + 50),
        },
    }
}

// The line for a cancellation whose content starts at a place.
pub fn cancelling_at(log: &[u8], start: usize) -> CancellingLine
    requires { start + 10 ≤ length log.now }
    ensures { result ≡ cancelling_in (part log.now start 10) }
{
    CancellingLine {
        house: log[start],
        place: octets::read_u64(log, start + 1),
        code: log[start + 9],
    }
}

// The line at the front of a log, and the log after it; none where no line stands there.
pub fn first_line(log: &[u8]) -> Option<(Line, &[u8])>
    ensures { first_seen result ≡ first_line log.now }
{
    let Ok(field) = line_field(log, 0) else {
        return None;
    };
    if field.tag == BOOKING {
        let line = booking_at(log, field.start);
        return Some((Line::Booking(line), &log[field.next..]));
    }
    let line = cancelling_at(log, field.start);
    Some((Line::Cancelling(line), &log[field.next..]))
}
