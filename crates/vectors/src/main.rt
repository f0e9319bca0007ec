// Replays calls of the library's routines that stand in its standard input, and prints their answers, a line each. The
// calls and the answers come from an independent program, tests/vectors.py.
#![tactic(auto)]

mod answers; // answers.rt: the calls, one function for each routine
mod show; // show.rt: numbers and bytes on standard output

ghost use Rattle.std.specs.Prelude.{◌≡◌, length};

use answers::Call;
use intake::read_full;
use std::io;
use std::io::Read;

fn buffer() -> [u8; 8192]
    ensures { 8192 ≡ length result }
{
    [0; 8192]
}

// Reads a call: eight little-endian numbers (operation, lengths of a, b, c, d and e, x, y), then the bytes a, b, c, d
// and e. Says whether there was one.
fn replay_next(rt: &impl Print, reader: &mut impl Read) -> io::Result<bool> {
    let mut header = [0u8; 64];
    if read_full(reader, &mut header)? != 64 {
        return Ok(false);
    }
    let operation = octets::read_u64(&header, 0);
    let length_a = octets::read_u64(&header, 8);
    let length_b = octets::read_u64(&header, 16);
    let length_c = octets::read_u64(&header, 24);
    let length_d = octets::read_u64(&header, 32);
    let length_e = octets::read_u64(&header, 40);
    let x = octets::read_u64(&header, 48);
    let y = octets::read_u64(&header, 56);
    if 8192 < length_a || 8192 < length_b || 8192 < length_c || 8192 < length_d || 8192 < length_e {
        return Ok(false);
    }
    let mut a = buffer();
    let mut b = buffer();
    let mut c = buffer();
    let mut d = buffer();
    let mut e = buffer();
    let call = Call {
        operation,
        a: &mut a[..length_a as usize],
        b: &mut b[..length_b as usize],
        c: &mut c[..length_c as usize],
        d: &mut d[..length_d as usize],
        e: &mut e[..length_e as usize],
        x,
        y,
    };
    read_full(reader, call.a)?;
    read_full(reader, call.b)?;
    read_full(reader, call.c)?;
    read_full(reader, call.d)?;
    read_full(reader, call.e)?;
    answers::answer(rt, call)?;
    Ok(true)
}

fn main(rt: HostRuntime) -> io::Result<()> {
    let mut reader = rt.reader();
    for _ in 0..1000000 {
        if !replay_next(&rt, &mut reader)? {
            break;
        }
    }
    Ok(())
}
