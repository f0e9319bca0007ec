// The numbers of an index, and its entries.
ghost use Rattle.std.specs.Prelude.{◌≡◌};
ghost use Rattle.sizes.specs.Numbers.{index_numbers};
ghost use Rattle.entries.specs.Entry.{kind_number, made_entry, read_entry};
ghost use Rattle.vizhuthamen.specs.Export.{lent_code, lent_output};

use crate::output::WRONG_LENGTH;
use entries::{Fields, ReadEntry};

// The number of index entries and the index start for a deal size.
#[unsafe(no_mangle)]
pub extern "C" fn vz_index_numbers(size: u64, entries: &mut u64, start: &mut u64) -> u32
    ensures value { result ≡ (index_numbers size).code }
    ensures entries_after { entries.new ≡ lent_output result (index_numbers size).entries entries.old }
    ensures start_after { start.new ≡ lent_output result (index_numbers size).start start.old }
{
    match sizes::index_numbers(size) {
        Ok(numbers) => {
            *entries = numbers.entries;
            *start = numbers.start;
            0
        }
        Err(refusal) => refusal.code() as u32,
    }
}

// What is said of the fields of an entry that is not valid.
const NO_FIELDS: Fields = Fields {
    commitment: [0; 32],
    offset: 0,
    size: 0,
};

// The entry for a commitment and two numbers.
#[unsafe(no_mangle)]
pub extern "C" fn vz_make_entry(commitment: &[u8], offset: u64, size: u64, entry: &mut [u8]) -> u32
    ensures value { result ≡ lent_code 64 entry.old (made_entry commitment.now offset size).code }
    ensures entry_after { entry.new
        ≡ lent_output result (made_entry commitment.now offset size).entry entry.old }
{
    if entry.len() != 64 {
        return WRONG_LENGTH;
    }
    match entries::make_entry(commitment, offset, size) {
        Ok(made) => {
            entry.copy_from_slice(&made);
            0
        }
        Err(refusal) => refusal.code() as u32,
    }
}

// What the bytes of an entry say.
#[unsafe(no_mangle)]
pub extern "C" fn vz_read_entry(
    entry: &[u8],
    kind: &mut u32,
    commitment: &mut [u8],
    offset: &mut u64,
    size: &mut u64,
) -> u32
    ensures value { result ≡ lent_code 32 commitment.old (read_entry entry.now).code }
    ensures kind_after { kind.new
        ≡ lent_output result (kind_number (read_entry entry.now).kind) kind.old }
    ensures commitment_after { commitment.new
        ≡ lent_output result (read_entry entry.now).commitment commitment.old }
    ensures offset_after { offset.new
        ≡ lent_output result (read_entry entry.now).offset offset.old }
    ensures size_after { size.new ≡ lent_output result (read_entry entry.now).size size.old }
{
    if commitment.len() != 32 {
        return WRONG_LENGTH;
    }
    let read = match entries::read_entry(entry) {
        Ok(read) => read,
        Err(refusal) => return refusal.code() as u32,
    };
    let (number, fields) = match read {
        ReadEntry::Blank => (0, NO_FIELDS),
        ReadEntry::Damaged => (1, NO_FIELDS),
        ReadEntry::Valid(fields) => (2, fields),
    };
    *kind = number;
    commitment.copy_from_slice(&fields.commitment);
    *offset = fields.offset;
    *size = fields.size;
    0
}
