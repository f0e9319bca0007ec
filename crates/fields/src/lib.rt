// Tagged fields: one tag byte, two length bytes (the least first), content. Read at a place or by a row of a table, and
// written one behind another.
#![tactic(auto)]

mod reading; // reading.rt: the field at a place
mod writing; // writing.rt: a field into an output

pub use reading::{field_for, read_field};
pub use writing::{put_field, put_head};

// A field: its tag, where its content starts, the content's length, and the next field's place.
#[derive(Clone, Copy, Debug, PartialEq, Eq)]
pub struct Field {
    pub tag: u8,
    pub start: usize,
    pub length: usize,
    pub next: usize,
}

// The lengths that a content may have: one, or every multiple of one.
#[derive(Clone, Copy, Debug, PartialEq, Eq)]
pub enum LengthRule {
    Exactly(usize),
    MultipleOf(usize),
}

// A row of a table of fields: a tag, and the lengths that its content may have.
#[derive(Clone, Copy, Debug, PartialEq, Eq)]
pub struct FieldRule {
    pub tag: u8,
    pub length: LengthRule,
}
