// Numbers and bytes on standard output, each with a space before it; a line starts with its code.
use std::io;

pub(crate) fn code(rt: &impl Print, x: u8) -> io::Result<()> {
    print!(rt; "{x}")
}

pub(crate) fn number(rt: &impl Print, n: u64) -> io::Result<()> {
    print!(rt; " {n}")
}

pub(crate) fn bytes(rt: &impl Print, s: &[u8]) -> io::Result<()> {
    print!(rt; " ")?;
    for byte in s {
        print!(rt; "{byte:02x}")?;
    }
    Ok(())
}

// The SHA-256 of bytes that are too many to print.
pub(crate) fn digest(rt: &impl Print, s: &[u8]) -> io::Result<()> {
    bytes(rt, &sha256::sha256(s).unwrap_or([0u8; 32]))
}

pub(crate) fn end(rt: &impl Print) -> io::Result<()> {
    println!(rt)
}
