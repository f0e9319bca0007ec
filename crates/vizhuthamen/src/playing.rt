// Logs.
ghost use Rattle.std.specs.Prelude.{◌≡◌, eqb};
ghost use Rattle.rules.specs.Choice.{choose};
ghost use Rattle.playback.specs.Playback.{playback};
ghost use Rattle.playback.specs.RowBytes.{rows_bytes};
ghost use Rattle.vizhuthamen.specs.Export.{lent_output};
ghost use Rattle.vizhuthamen.specs.PlayedLog.{verdict_line, playback_code};

use crate::output::WRONG_LENGTH;
use playback::NotPlayed;

// What is answered for a line that the rules do not confirm: a number past all codes.
const WRONG_LINE: u32 = 256;

// Plays a log back.
#[unsafe(no_mangle)]
pub extern "C" fn vz_playback(
    size: u64,
    log: &[u8],
    line: &mut u64,
    code: &mut u32,
    offset: &mut u64,
    place: &mut u64,
    count: &mut u64,
    rows: &mut [u8],
) -> u32
    ensures value { result ≡ playback_code size log.now rows.old }
    ensures line_after { line.new
        ≡ choose (eqb result 256) (verdict_line (playback size log.now).verdict) line.old }
    ensures code_after { code.new
        ≡ choose (eqb result 256) (playback size log.now).ruling.code code.old }
    ensures offset_after { offset.new
        ≡ choose (eqb result 256) (playback size log.now).ruling.offset offset.old }
    ensures place_after { place.new
        ≡ choose (eqb result 256) (playback size log.now).ruling.place place.old }
    ensures count_after { count.new
        ≡ lent_output result (playback size log.now).count count.old }
    ensures rows_after { rows.new
        ≡ lent_output result (rows_bytes (playback size log.now).rows) rows.old }
{
    if rows.len() != playback::ROWS_BYTES {
        return WRONG_LENGTH;
    }
    match playback::play_back(size, log) {
        Ok(standing) => {
            *count = standing.count as u64;
            playback::put_rows(&standing.rows, rows);
            0
        }
        Err(NotPlayed::Refused(refusal)) => refusal.code() as u32,
        Err(NotPlayed::Line { number, ruling }) => {
            *line = number;
            *code = ruling.code as u32;
            *offset = ruling.offset;
            *place = ruling.place;
            WRONG_LINE
        }
    }
}
