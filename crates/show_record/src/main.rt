// Reads records from standard input, each after its length (8 bytes, little-endian), and prints the fields that the
// reader hands out: a line for each with its tag, its length and its content in hex, and a line that says where they
// end.
#![tactic(auto)]

ghost use Rattle.std.specs.Prelude.{◌≡◌, length};

use std::io;

fn show_hex(rt: &impl Print, bytes: &[u8]) -> io::Result<()> {
    for byte in bytes {
        print!(rt; "{byte:02x}")?;
    }
    Ok(())
}

// A field's tag, its length and its content in hex.
fn show_field(rt: &impl Print, tag: u8, content: &[u8]) -> io::Result<()> {
    print!(rt; "field {tag} length {} content ", content.len())?;
    show_hex(rt, content)?;
    println!(rt)
}

// The fields of a record in turn; the answer is the place where they end. A record of n bytes has less than n fields.
fn show_fields(rt: &impl Print, record: &[u8]) -> io::Result<usize> {
    let mut place = 0;
    for number in 0..record.len() {
        let Ok(field) = reader::field(record, number) else {
            break;
        };
        show_field(rt, field.tag, &record[field.start..field.next])?;
        place = field.next;
    }
    Ok(place)
}

// A record's length, its fields, and where they end. A record of more than 4,096 bytes is refused.
fn show_record(rt: &impl Print, record: &[u8]) -> io::Result<()> {
    println!(rt; "record of {} bytes", record.len())?;
    if record.len() > 4096 {
        return println!(rt; "refused: more than 4096 bytes");
    }
    let place = show_fields(rt, record)?;
    if place == record.len() {
        print!(rt; "end at ")?;
    } else {
        print!(rt; "no field at ")?;
    }
    println!(rt; "{place}")
}

// The records of an input, each after its length.
fn show_records(rt: &impl Print, input: &[u8]) -> io::Result<()> {
    let mut rest = input;
    // Each record has a length of its own, so that no iterator of the library hands out records.
    while let Some((length, after)) = rest.split_first_chunk::<8>() {
        let length = u64::from_le_bytes(*length);
        let Some((record, later)) = after.split_at_checked(length as usize) else {
            return println!(rt; "refused: the input ends within a record");
        };
        show_record(rt, record)?;
        rest = later;
    }
    Ok(())
}

// 65,536 zeros: as much of an input is read.
fn buffer() -> [u8; 65536]
    ensures { 65536 ≡ length result }
{
    [0; 65536]
}

fn main(rt: HostRuntime) -> io::Result<()> {
    let mut input = buffer();
    let length = intake::read_full(&mut rt.reader(), &mut input)?;
    show_records(&rt, &input[..length])
}
