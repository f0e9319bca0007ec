// Index entries: their bytes, their checksum, and their kinds.
#![tactic(auto)]

mod entry; // entry.rt: entries and their checksum

pub use entry::{entry_of, fields_of, kind_of, make_entry, read_entry};

// The kind of an entry: blank where all its 64 bytes are zero, else damaged where its checksum is wrong, else valid.
#[derive(Clone, Copy, Debug, PartialEq, Eq, Drop)]
pub enum EntryKind {
    Blank,
    Damaged,
    Valid,
}

// The three fields of an entry.
#[derive(Clone, Copy, Debug, PartialEq, Eq, Drop)]
pub struct Fields {
    pub commitment: [u8; 32],
    pub offset: u64,
    pub size: u64,
}

// What the bytes of an entry say: its kind, with its fields where it is valid.
#[derive(Clone, Copy, Debug, PartialEq, Eq, Drop)]
pub enum ReadEntry {
    Blank,
    Damaged,
    Valid(Fields),
}
