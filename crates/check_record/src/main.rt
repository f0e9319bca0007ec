// Reads from standard input a deal's commitment (32 bytes), its size and its number (8 each, little-endian) and a
// record to the end, and prints the check's code in decimal and a newline.
#![tactic(auto)]

use std::io;

fn main(rt: HostRuntime) -> io::Result<()> {
    // one byte more than the longest input that is checked: a longer one gets 3, whatever comes after
    let mut input = [0u8; 4145];
    let length = intake::read_full(&mut rt.reader(), &mut input)?;
    let code = rules::code_of(check_input::check_input(&input[..length]));
    println!(rt; "{code}")
}
