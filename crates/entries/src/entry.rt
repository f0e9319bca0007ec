// Index entries, 64 bytes each: commitment, 32; offset, 8; size, 8; checksum, 16.
ghost use Rattle.std.specs.Prelude.{◌≡◌, length};
ghost use Rattle.octets.specs.Splice.{part};
ghost use Rattle.entries.specs.Checksum.{checksum_of};
ghost use Rattle.entries.specs.Entry.{entry_of, checksum_right, kind_of, made_entry, read_entry};
ghost use Rattle.entries.specs.Entry.{commitment_in, offset_in, size_in};
ghost use Rattle.entries.specs.Answers.{made_as, read_answer};

use crate::{EntryKind, Fields, ReadEntry};
use rules::Refusal;

// The checksum of an entry, whatever its own last 16 bytes hold: the first 16 bytes of the SHA-256 of the entry with
// zeros there, the top two bits of the last one cleared.
fn checksum(entry: &[u8]) -> [u8; 16]
    requires { length entry.now ≡ 64 }
    ensures { result ≡ checksum_of (part entry.now 0 48) }
{
    let mut cleared = [0u8; 64];
    octets::put(&mut cleared, 0, &entry[..48]);
    let digest = sha256::sha256(&cleared).unwrap();
    let mut sum = octets::array_at(&digest, 0);
    sum[15] = digest[15] % 64;
    sum
}

// The entry for a commitment, an offset and a size.
pub fn entry_of(commitment: [u8; 32], offset: u64, size: u64) -> [u8; 64]
    ensures { result ≡ entry_of commitment offset size }
{
    let mut entry = [0u8; 64];
    octets::put(&mut entry, 0, &commitment);
    octets::put_u64(&mut entry, 32, offset);
    octets::put_u64(&mut entry, 40, size);
    let sum = checksum(&entry);
    octets::put(&mut entry, 48, &sum);
    entry
}

// Whether the checksum of an entry is right.
fn checksum_right(entry: &[u8]) -> bool
    requires { length entry.now ≡ 64 }
    ensures { result ≡ checksum_right entry.now }
{
    checksum(entry).as_slice() == &entry[48..]
}

// The kind of an entry: blank where all its bytes are zero, else valid where its checksum is right, else damaged. A
// blank entry costs no checksum.
pub fn kind_of(entry: &[u8]) -> EntryKind
    requires { length entry.now ≡ 64 }
    ensures { result ≡ kind_of entry.now }
{
    if octets::all_zero(entry) {
        return EntryKind::Blank;
    }
    if !checksum_right(entry) {
        return EntryKind::Damaged;
    }
    EntryKind::Valid
}

// The three fields of an entry, whatever its kind.
pub fn fields_of(entry: &[u8]) -> Fields
    requires { length entry.now ≡ 64 }
    ensures commitment { result.commitment ≡ commitment_in entry.now }
    ensures offset { result.offset ≡ offset_in entry.now }
    ensures size { result.size ≡ size_in entry.now }
{
    Fields {
        commitment: octets::array_at(entry, 0),
        offset: octets::read_u64(entry, 32),
        size: octets::read_u64(entry, 40),
    }
}

// The entry for a lent commitment and two numbers, which are taken as they are; 1 for a commitment that is not 32 bytes
// long, 8 for one with stray bits.
pub fn make_entry(commitment: &[u8], offset: u64, size: u64) -> Result<[u8; 64], Refusal>
    ensures { made_as result ≡ made_entry commitment.now offset size }
{
    if commitment.len() != 32 {
        return Err(Refusal::CommitmentLength);
    }
    if !stray::no_stray_bits(commitment) {
        return Err(Refusal::CommitmentBits);
    }
    Ok(entry_of(octets::array_at(commitment, 0), offset, size))
}

// The kind of a lent entry, with its three fields where it is valid; 2 unless there are 64 bytes.
pub fn read_entry(entry: &[u8]) -> Result<ReadEntry, Refusal>
    ensures { read_answer result ≡ read_entry entry.now }
{
    if entry.len() != 64 {
        return Err(Refusal::Size);
    }
    match kind_of(entry) {
        EntryKind::Blank => Ok(ReadEntry::Blank),
        EntryKind::Damaged => Ok(ReadEntry::Damaged),
        EntryKind::Valid => Ok(ReadEntry::Valid(fields_of(entry))),
    }
}
