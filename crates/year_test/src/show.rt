// What a year came to, on standard output.
use crate::counts::{CODES, Codes, Counts, Tally};
use crate::history::History;
use std::io;

// A number, after some words.
fn number(rt: &impl Print, words: &[u8], n: u64) -> io::Result<()> {
    rt.write_all(words)?;
    print!(rt; "{n}")
}

fn end(rt: &impl Print) -> io::Result<()> {
    println!(rt)
}

// The SHA-256 of bytes, after some words.
fn digest(rt: &impl Print, words: &[u8], s: &[u8]) -> io::Result<()> {
    node(rt, words, sha256::sha256(s).unwrap_or([0u8; 32]))
}

// 32 bytes in hex, after some words.
fn node(rt: &impl Print, words: &[u8], bytes: [u8; 32]) -> io::Result<()> {
    rt.write_all(words)?;
    for byte in &bytes {
        print!(rt; "{byte:02x}")?;
    }
    end(rt)
}

// A code and how often it was answered, if it was.
fn code(rt: &impl Print, code: usize, times: u64) -> io::Result<()> {
    if times == 0 {
        return Ok(());
    }
    number(rt, b" ", code as u64)?;
    number(rt, b":", times)
}

// The codes that the calls of a kind were answered with, each with how often.
fn kind(rt: &impl Print, words: &[u8], codes: &Codes) -> io::Result<()> {
    rt.write_all(words)?;
    for i in 0..CODES {
        code(rt, i, codes[i])?;
    }
    end(rt)
}

// How often a test was made, and how often it failed.
fn test(rt: &impl Print, words: &[u8], tally: Tally) -> io::Result<()> {
    rt.write_all(words)?;
    number(rt, b"", tally.made)?;
    number(rt, b" made, ", tally.failed)?;
    println!(rt; " failed")
}

// The calls of a year by their codes, its tests, and what its history says.
pub(crate) fn year(
    rt: &impl Print,
    size: u64,
    calls: u64,
    counts: &Counts,
    history: &History,
) -> io::Result<()> {
    number(rt, b"a year of ", calls)?;
    number(rt, b" calls on a deal of ", size)?;
    println!(rt; " bytes")?;
    kind(rt, b"bookings by code", &counts.bookings)?;
    kind(rt, b"cancellations by code", &counts.cancellations)?;
    kind(rt, b"collections by code", &counts.collections)?;
    test(rt, b"no two alike: ", counts.tests.none_alike)?;
    test(rt, b"none overlap: ", counts.tests.none_overlaps)?;
    test(rt, b"each kept: ", counts.tests.each_kept)?;
    test(rt, b"each record accepted: ", counts.tests.each_record)?;
    test(rt, b"areas booked less cancelled: ", counts.tests.areas)?;
    number(rt, b"segments booked at once: ", history.most)?;
    end(rt)?;
    number(rt, b"areas booked: ", history.areas_booked)?;
    number(rt, b", cancelled: ", history.areas_cancelled)?;
    end(rt)
}

// The deal's commitment, and a hash of the deal and of its table.
pub(crate) fn state(rt: &impl Print, deal: &[u8], table: &[u8]) -> io::Result<()> {
    let commitment = merkle::commitment(deal).unwrap_or([0u8; 32]);
    node(rt, b"commitment ", commitment)?;
    digest(rt, b"deal ", deal)?;
    digest(rt, b"table ", table)
}
