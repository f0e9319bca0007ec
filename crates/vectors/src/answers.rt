// The calls. Each prints its answer, and `answer` the end of the line.
ghost use Rattle.std.specs.Prelude.{◌≤◌};

use crate::show;
use entries::{Fields, ReadEntry};
use index::{FoundSegment, Tallied};
use paths::{Compared, Difference};
use playback::{NotPlayed, ROWS_BYTES};
use room::Booked;
use rules::Refusal;
use std::io;
use stream::Stream;

// The code of an answer: 0, or that of the refusal. `rules::code_of` is for answers without a value, and takes them.
fn refusal_of<T>(answer: &Result<T, Refusal>) -> u8 {
    match answer {
        Ok(_) => 0,
        Err(refusal) => refusal.code(),
    }
}

fn hash(rt: &impl Print, message: &[u8]) -> io::Result<()> {
    let hashed = sha256::sha256(message);
    show::code(rt, refusal_of(&hashed))?;
    show::bytes(rt, &hashed.unwrap_or([0u8; 32]))
}

fn commit(rt: &impl Print, run: &[u8]) -> io::Result<()> {
    let committed = merkle::commitment(run);
    show::code(rt, refusal_of(&committed))?;
    show::bytes(rt, &committed.unwrap_or([0u8; 32]))
}

// Where a piece ends that starts at `at` and has a length, as far as the bytes go.
fn piece_end(at: usize, length: u8, total: usize) -> usize
    requires { at ≤ total }
    ensures { (at ≤ result) × (result ≤ total) }
{
    if total - at < length as usize {
        return total;
    }
    at + length as usize
}

// A stream after pieces of these lengths, and the rest of the bytes in one piece. The code that sticks after each may
// be shown.
fn take_pieces(rt: &impl Print, bytes: &[u8], lengths: &[u8], shown: bool) -> io::Result<Stream> {
    let mut state = Stream::new();
    let mut at: usize = 0;
    for length in lengths {
        let end = piece_end(at, *length, bytes.len());
        state = state.take(&bytes[at..end]);
        if shown {
            show::number(rt, state.code as u64)?;
        }
        at = end;
    }
    let last = state.take(&bytes[at..]);
    if shown {
        show::number(rt, last.code as u64)?;
    }
    Ok(last)
}

// Bytes that arrive in pieces; then the code that sticks after each piece.
fn stream(rt: &impl Print, bytes: &[u8], lengths: &[u8]) -> io::Result<()> {
    let answer = take_pieces(rt, bytes, lengths, false)?.end();
    show::code(rt, refusal_of(&answer))?;
    let ended = answer.unwrap_or(stream::Ended {
        node: [0u8; 32],
        count: 0,
    });
    show::bytes(rt, &ended.node)?;
    show::number(rt, ended.count)?;
    let _ = take_pieces(rt, bytes, lengths, true)?;
    Ok(())
}

fn index_numbers(rt: &impl Print, size: u64) -> io::Result<()> {
    let (code, entries, start) = match sizes::index_numbers(size) {
        Ok(numbers) => (0, numbers.entries, numbers.start),
        Err(refusal) => (refusal.code(), 0, 0),
    };
    show::code(rt, code)?;
    show::number(rt, entries)?;
    show::number(rt, start)
}

fn make_entry(rt: &impl Print, commitment: &[u8], offset: u64, size: u64) -> io::Result<()> {
    let made = entries::make_entry(commitment, offset, size);
    show::code(rt, refusal_of(&made))?;
    show::bytes(rt, &made.unwrap_or([0u8; 64]))
}

fn read_entry(rt: &impl Print, bytes: &[u8]) -> io::Result<()> {
    let read = entries::read_entry(bytes);
    show::code(rt, refusal_of(&read))?;
    let none = Fields {
        commitment: [0u8; 32],
        offset: 0,
        size: 0,
    };
    let (kind, fields) = match read {
        Ok(ReadEntry::Blank) => (0, none),
        Ok(ReadEntry::Damaged) => (1, none),
        Ok(ReadEntry::Valid(fields)) => (2, fields),
        Err(_) => (0, none),
    };
    show::number(rt, kind)?;
    show::bytes(rt, &fields.commitment)?;
    show::number(rt, fields.offset)?;
    show::number(rt, fields.size)
}

fn tally(rt: &impl Print, deal: &[u8]) -> io::Result<()> {
    let tallied = index::tally(deal);
    show::code(rt, refusal_of(&tallied))?;
    let tallied = tallied.unwrap_or(Tallied {
        blank: 0,
        damaged: 0,
        valid: 0,
    });
    show::number(rt, tallied.blank)?;
    show::number(rt, tallied.damaged)?;
    show::number(rt, tallied.valid)
}

fn audit(rt: &impl Print, deal: &[u8], states: &mut [u8]) -> io::Result<()> {
    show::code(rt, rules::code_of(audit::audit(deal, states)))?;
    show::digest(rt, states)
}

// The kind of the answer, 0 or 1, and the code or the number of the line; what the rules give for that line; the rows.
fn playback(rt: &impl Print, log: &[u8], size: u64) -> io::Result<()> {
    let mut ruling = Booked {
        code: 0,
        offset: 0,
        place: 0,
    };
    let mut count: usize = 0;
    let mut bytes = [0u8; ROWS_BYTES];
    match playback::play_back(size, log) {
        Ok(standing) => {
            show::code(rt, 0)?;
            show::number(rt, 0)?;
            count = standing.count;
            playback::put_rows(&standing.rows, &mut bytes);
        }
        Err(NotPlayed::Refused(refusal)) => {
            show::code(rt, 0)?;
            show::number(rt, refusal.code() as u64)?;
        }
        Err(
            NotPlayed::Line {
                number,
                ruling: given,
            },
        ) => {
            show::code(rt, 1)?;
            show::number(rt, number)?;
            ruling = given;
        }
    }
    show::number(rt, ruling.code as u64)?;
    show::number(rt, ruling.offset)?;
    show::number(rt, ruling.place)?;
    show::number(rt, count as u64)?;
    show::digest(rt, &bytes)
}

fn find(rt: &impl Print, deal: &[u8], commitment: &[u8]) -> io::Result<()> {
    let found = index::find_numbers(deal, commitment);
    let view = index::find(deal, commitment);
    show::code(rt, refusal_of(&found))?;
    let found = found.unwrap_or(FoundSegment {
        offset: 0,
        size: 0,
        place: 0,
    });
    show::number(rt, found.offset)?;
    show::number(rt, found.size)?;
    show::number(rt, found.place)?;
    show::number(rt, view.len() as u64)?;
    show::digest(rt, view)
}

// The answer of a booking, and the deal afterwards.
fn booked(rt: &impl Print, answer: Booked, deal: &[u8]) -> io::Result<()> {
    show::code(rt, answer.code)?;
    show::number(rt, answer.offset)?;
    show::number(rt, answer.place)?;
    show::digest(rt, deal)
}

// The house that a number names; 0 is none.
fn house_of(number: u64) -> u8 {
    u8::try_from(number).unwrap_or(0)
}

fn book(
    rt: &impl Print,
    deal: &mut [u8],
    table: &mut [u8],
    house: u64,
    segment: &[u8],
) -> io::Result<()> {
    let answer = booking::book(deal, table, house_of(house), segment);
    booked(rt, room::booked_of(answer), deal)?;
    show::digest(rt, table)
}

fn book_with_tree(
    rt: &impl Print,
    deal: &mut [u8],
    tree: &mut [u8],
    table: &mut [u8],
    house: u64,
    segment: &[u8],
) -> io::Result<()> {
    let answer = booking::book_with_tree(deal, tree, table, house_of(house), segment);
    booked(rt, room::booked_of(answer), deal)?;
    show::digest(rt, tree)?;
    show::digest(rt, table)
}

fn cancel(
    rt: &impl Print,
    deal: &mut [u8],
    table: &mut [u8],
    house: u64,
    place: u64,
) -> io::Result<()> {
    let answer = cancel::cancel(deal, table, house_of(house), place);
    show::code(rt, rules::code_of(answer))?;
    show::digest(rt, deal)?;
    show::digest(rt, table)
}

fn cancel_with_tree(
    rt: &impl Print,
    deal: &mut [u8],
    tree: &mut [u8],
    table: &mut [u8],
    house: u64,
    place: u64,
) -> io::Result<()> {
    let answer = cancel::cancel_with_tree(deal, tree, table, house_of(house), place);
    show::code(rt, rules::code_of(answer))?;
    show::digest(rt, deal)?;
    show::digest(rt, tree)?;
    show::digest(rt, table)
}

fn collect(
    rt: &impl Print,
    deal: &[u8],
    table: &[u8],
    second: &mut [u8],
    second_table: &mut [u8],
) -> io::Result<()> {
    let answer = collect::collect(deal, table, second, second_table);
    show::code(rt, rules::code_of(answer))?;
    show::digest(rt, second)?;
    show::digest(rt, second_table)
}

fn collect_with_tree(
    rt: &impl Print,
    deal: &[u8],
    table: &[u8],
    second: &mut [u8],
    tree: &mut [u8],
    second_table: &mut [u8],
) -> io::Result<()> {
    let answer = collect::collect_with_tree(deal, table, second, tree, second_table);
    show::code(rt, rules::code_of(answer))?;
    show::digest(rt, second)?;
    show::digest(rt, tree)?;
    show::digest(rt, second_table)
}

fn fill_tree(rt: &impl Print, deal: &[u8], tree: &mut [u8]) -> io::Result<()> {
    show::code(rt, rules::code_of(lent::fill_tree(deal, tree)))?;
    show::digest(rt, tree)
}

fn fill_row(rt: &impl Print, below: &[u8], above: &mut [u8]) -> io::Result<()> {
    show::code(rt, rules::code_of(tree::fill_row(below, above)))?;
    show::digest(rt, above)
}

// The answer of a call that writes to an output, and the output afterwards.
fn written(rt: &impl Print, answer: Result<usize, Refusal>, out: &[u8]) -> io::Result<()> {
    show::code(rt, refusal_of(&answer))?;
    show::number(rt, answer.unwrap_or(0) as u64)?;
    show::digest(rt, out)
}

fn build(rt: &impl Print, deal: &[u8], number: u64, place: u64, out: &mut [u8]) -> io::Result<()> {
    let answer = builder::build(deal, number, place, out);
    written(rt, answer, out)
}

fn build_with_tree(
    rt: &impl Print,
    deal: &[u8],
    tree: &[u8],
    number: u64,
    place: u64,
    out: &mut [u8],
) -> io::Result<()> {
    let answer = builder::build_with_tree(deal, tree, number, place, out);
    written(rt, answer, out)
}

fn pad(rt: &impl Print, raw: &[u8], out: &mut [u8]) -> io::Result<()> {
    let answer = fr32::pad(raw, out);
    written(rt, answer, out)
}

fn unpad(rt: &impl Print, raw_length: u64, segment: &[u8], out: &mut [u8]) -> io::Result<()> {
    let answer = fr32::unpad(raw_length, segment, out);
    written(rt, answer, out)
}

// A code, and two strings: with 17 those of a difference, else zeros.
fn strings(rt: &impl Print, answer: Result<Option<Difference>, Refusal>) -> io::Result<()> {
    let none = Difference {
        left: [0u8; 64],
        right: [0u8; 64],
    };
    let (code, strings) = match answer {
        Ok(Some(difference)) => (17, difference),
        Ok(None) => (0, none),
        Err(refusal) => (refusal.code(), none),
    };
    show::code(rt, code)?;
    show::bytes(rt, &strings.left)?;
    show::bytes(rt, &strings.right)
}

// The strings of two paths from one position compared, each path after the node that it starts from: 17 and the two
// strings at the first difference from the top, or 0 and zeros. The two need not lead to one node.
fn compare(rt: &impl Print, position: u64, a: &[u8], b: &[u8]) -> io::Result<()> {
    if a.len() != b.len() {
        return Ok(());
    }
    if a.len() < 32 {
        return Ok(());
    }
    let x = octets::array_at(a, 0);
    let y = octets::array_at(b, 0);
    let found = paths::compare_paths(position, x, &a[32..], y, &b[32..], Compared::EQUAL);
    strings(rt, Ok(found.difference()))
}

// The fields in turn from place 0, and the first place that is no field.
fn fields(rt: &impl Print, record: &[u8]) -> io::Result<()> {
    show::code(rt, 0)?;
    let mut place: usize = 0;
    for _ in 0..8192 {
        let Ok(field) = fields::read_field(record, place) else {
            break;
        };
        show::number(rt, field.tag as u64)?;
        show::number(rt, field.start as u64)?;
        show::number(rt, field.length as u64)?;
        show::number(rt, field.next as u64)?;
        place = field.next;
    }
    show::number(rt, place as u64)
}

// A call: five byte strings and two numbers, of which each routine takes some. A table of owners is in d, a second one
// in e, and a house in y.
#[derive(Drop)]
pub(crate) struct Call<'a> {
    pub(crate) operation: u64,
    pub(crate) a: &'a mut [u8],
    pub(crate) b: &'a mut [u8],
    pub(crate) c: &'a mut [u8],
    pub(crate) d: &'a mut [u8],
    pub(crate) e: &'a mut [u8],
    pub(crate) x: u64,
    pub(crate) y: u64,
}

// Answers a call.
fn answer_call(rt: &impl Print, call: Call) -> io::Result<()> {
    let Call {
        operation,
        a,
        b,
        c,
        d,
        e,
        x,
        y,
    } = call;
    match operation {
        1 => hash(rt, a),
        2 => commit(rt, a),
        3 => index_numbers(rt, x),
        4 => make_entry(rt, a, x, y),
        5 => read_entry(rt, a),
        6 => find(rt, a, b),
        7 => book(rt, a, d, y, b),
        8 => build(rt, a, y, x, b),
        9 => show::code(rt, rules::code_of(record::check(b, x, y, a))),
        10 => strings(rt, settle::settle_records(c, x, y, a, b)),
        11 => strings(rt, settle::settle_with_deal(a, y, b)),
        12 => fields(rt, a),
        13 => show::code(rt, rules::code_of(check_input::check_input(a))),
        14 => audit(rt, a, b),
        15 => compare(rt, x, a, b),
        16 => stream(rt, a, b),
        17 => pad(rt, a, b),
        18 => unpad(rt, x, a, b),
        19 => tally(rt, a),
        20 => fill_tree(rt, a, c),
        21 => book_with_tree(rt, a, c, d, y, b),
        22 => build_with_tree(rt, a, c, y, x, b),
        23 => strings(rt, settle::settle_with_tree(a, c, y, b)),
        24 => cancel(rt, a, d, y, x),
        25 => cancel_with_tree(rt, a, c, d, y, x),
        26 => collect(rt, a, d, b, e),
        27 => collect_with_tree(rt, a, d, b, c, e),
        28 => fill_row(rt, a, b),
        29 => playback(rt, a, x),
        _ => Ok(()),
    }
}

pub(crate) fn answer(rt: &impl Print, call: Call) -> io::Result<()> {
    answer_call(rt, call)?;
    show::end(rt)
}
