// Lent outputs.

// The code where an output that has one fixed length has another.
pub(crate) const WRONG_LENGTH: u32 = 12;
