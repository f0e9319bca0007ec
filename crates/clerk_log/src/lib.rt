// The clerks' log: tagged fields, a line for each booking and each cancellation whose answer gets one.
#![tactic(auto)]

mod reading; // reading.rt: the line at a place of a log, and at its front
mod whole; // whole.rt: the form of a whole log

pub use reading::{booking_at, cancelling_at, first_line, line_field};
use room::Booked;
pub use whole::in_form;

// The tags of the two kinds of lines.
pub const BOOKING: u8 = 1;

pub const CANCELLING: u8 = 2;

// House and code are bytes of the log, any until its form is checked.

// A line for a booking: house, commitment and size of the segment, and the answer.
#[derive(Clone, Copy, Drop)]
pub struct BookingLine {
    pub house: u8,
    pub commitment: [u8; 32],
    pub size: u64,
    pub answer: Booked,
}

// A line for a cancellation: house, entry place, and the code that was answered.
#[derive(Clone, Copy, Drop)]
pub struct CancellingLine {
    pub house: u8,
    pub place: u64,
    pub code: u8,
}

// A line of either kind.
#[derive(Clone, Copy, Drop)]
pub enum Line {
    Booking(BookingLine),
    Cancelling(CancellingLine),
}
