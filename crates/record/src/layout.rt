// The table of a record's fields. Their tags and lengths are named here and nowhere else in the code.
use fields::{FieldRule, LengthRule};

// The rows of the table, in its order.
pub const COMMITMENT: FieldRule = FieldRule {
    tag: 1,
    length: LengthRule::Exactly(32),
};

pub const OFFSET: FieldRule = FieldRule {
    tag: 2,
    length: LengthRule::Exactly(8),
};

pub const SIZE: FieldRule = FieldRule {
    tag: 3,
    length: LengthRule::Exactly(8),
};

pub const PLACE: FieldRule = FieldRule {
    tag: 4,
    length: LengthRule::Exactly(8),
};

pub const SEGMENT_PATH: FieldRule = FieldRule {
    tag: 5,
    length: LengthRule::MultipleOf(32),
};

pub const ENTRY_PATH: FieldRule = FieldRule {
    tag: 6,
    length: LengthRule::MultipleOf(32),
};

pub const NUMBER: FieldRule = FieldRule {
    tag: 7,
    length: LengthRule::Exactly(8),
};

// The bytes of a record beside its two paths: a head for each of the seven rows, the commitment and four numbers.
pub const FIXED_LENGTH: usize = 3 * 7 + 32 + 4 * 8;
