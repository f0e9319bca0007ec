// The library for programs in other languages: the functions of include/vizhuthamen.h, which says what each of them
// does. A function passes what it is lent to the crate that does the work, and writes the answer to the lent outputs.
#![tactic(auto)]

pub mod bookings; // bookings.rt: booking a segment, with the tree beside the deal or without it, and filling that tree
pub mod cancelling; // cancelling.rt: cancelling an entry, and collecting a deal into a second one
pub mod deals; // deals.rt: the audit and the tally of an index, finding a segment
pub mod hashing; // hashing.rt: SHA-256 and commitments
pub mod index_entries; // index_entries.rt: index numbers and entries
mod output; // output.rt: the code for an output of another length
pub mod padding; // padding.rt: raw archives to segments and back
pub mod playing; // playing.rt: playing a log back
pub mod records; // records.rt: building and checking a record, and reading its fields
pub mod settling; // settling.rt: settling two records, or a record with a deal
pub mod streaming; // streaming.rt: the commitment of bytes that arrive in pieces
