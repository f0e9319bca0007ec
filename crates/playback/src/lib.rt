// Playing a log back: a ledger of rows under the rules of booking and cancelling, and the first line whose answers they
// do not give.
#![tactic(auto)]

mod ledger; // ledger.rt: a ledger's rows, and the numbers that the rules look at
mod playing; // playing.rt: one line played on a ledger
mod row; // row.rt: what a row says
mod rows; // rows.rt: the rows that come back, and their bytes

ghost use Rattle.std.specs.Prelude.{◌≡◌, true};
ghost use Rattle.clerk_log.specs.Log.{log_lines};
ghost use Rattle.clerk_log.specs.LineAt.{is_log};
ghost use Rattle.sizes.specs.Sizes.{lent_size_allowed};
ghost use Rattle.playback.specs.Playback.{played_log};
ghost use Rattle.playback.specs.Played.{played};
ghost use Rattle.playback.specs.Playback as P;

use ledger::Ledger;
use room::Booked;
pub use rows::{ROW_BYTES, ROWS_BYTES, put_rows};
use rules::Refusal;

// The rows of a ledger for the largest lent deal.
pub const ROWS: usize = 128;

// A row of a ledger: house, commitment and size of the segment, offset, entry place; all zeros where it is vacant, as
// its bytes are then: `rows_bytes`, the definitions of specs/Ledger.antt and vz_playback have such rows.
#[derive(Clone, Copy, Debug, PartialEq, Eq)]
pub struct LedgerRow {
    pub house: u8,
    pub commitment: [u8; 32],
    pub size: u64,
    pub offset: u64,
    pub place: u64,
}

// The rows that stand, by rising place, and how many they are; vacant rows after them.
#[derive(Clone, Copy, Debug, PartialEq, Eq)]
pub struct Standing {
    pub count: usize,
    pub rows: [LedgerRow; ROWS],
}

// Why a log gives no rows: a refusal, or the first line whose answers the rules do not give, by its number from 1, with
// what they give.
#[derive(Clone, Copy, Debug, PartialEq, Eq)]
pub enum NotPlayed {
    Refused(Refusal),
    Line { number: u64, ruling: Booked },
}

// Plays a log that is in form: the rows, or the first line whose answers the rules do not give.
fn play(size: u64, log: &[u8]) -> Result<Standing, NotPlayed>
    requires { (lent_size_allowed size ≡ true) × (is_log (log_lines size log.now) ≡ true) }
    ensures { played result ≡ played_log size (log_lines size log.now) }
{
    let mut ledger = Ledger::empty(size);
    let mut rest = log;
    let mut number: u64 = 1;
    // A line takes up 13 or 61 bytes, so that no iterator of the library hands out lines.
    while !rest.is_empty() {
        // A log in form has a line here: the refusal is never given.
        let Some((line, later)) = clerk_log::first_line(rest) else {
            return Err(NotPlayed::Refused(Refusal::Form));
        };
        if let Err(ruling) = ledger.play(&line) {
            return Err(NotPlayed::Line { number, ruling });
        }
        rest = later;
        number += 1;
    }
    Ok(ledger.standing())
}

// Plays a log back on an empty ledger for a deal of this size. Refused with 2 for a size that no lent deal has, with 3
// for a log that is malformed; then with the number of the first line whose answers the rules do not give, from 1, and
// the code, the offset and the place that they give; else the rows by rising entry place.
pub fn play_back(size: u64, log: &[u8]) -> Result<Standing, NotPlayed>
    ensures { played result ≡ P.playback size log.now }
{
    if !sizes::lent_size_allowed(size as usize) {
        return Err(NotPlayed::Refused(Refusal::Size));
    }
    if !clerk_log::in_form(size, log) {
        return Err(NotPlayed::Refused(Refusal::Form));
    }
    play(size, log)
}
