// Reading a field: the field with the next place, or else the refusal.
ghost use Rattle.std.specs.Prelude.{◌≡◌};
ghost use Rattle.rules.specs.Refusals.{first_refusal};
ghost use Rattle.fields.specs.Table.{length_allowed};
ghost use Rattle.fields.specs.FieldAt.{field_at, field_for, field_answer, field_rules, row_rules};
ghost use Rattle.rules.specs.Answers.{code_of};

use crate::{Field, FieldRule, LengthRule};
use rules::Refusal;

// The field at any place, with the next place; the refusal, code 3, where it does not lie within the bytes.
pub fn read_field(bytes: &[u8], place: usize) -> Result<Field, Refusal>
    ensures { (field_answer result ≡ field_at bytes.now place)
        × (code_of result ≡ first_refusal (field_rules bytes.now place)) }
{
    let end = bytes.len();
    if end < 3 || end - 3 < place {
        return Err(Refusal::Form);
    }
    let length = u16::from_le_bytes([bytes[place + 1], bytes[place + 2]]) as usize;
    let start = place + 3;
    if end - start < length {
        return Err(Refusal::Form);
    }
    Ok(Field {
        tag: bytes[place],
        start,
        length,
        next: start + length,
    })
}

// Whether a content may have a length.
fn length_allowed(rule: LengthRule, length: usize) -> bool
    ensures { result ≡ length_allowed rule length }
{
    match rule {
        LengthRule::Exactly(n) => length == n,
        LengthRule::MultipleOf(n) => n != 0 && length % n == 0,
    }
}

// The field at a place, where it is the one that a row of a table asks for; else the refusal, code 3.
pub fn field_for(bytes: &[u8], place: usize, row: FieldRule) -> Result<Field, Refusal>
    ensures { (field_answer result ≡ field_for row bytes.now place)
        × (code_of result ≡ first_refusal (row_rules row bytes.now place)) }
{
    let field = read_field(bytes, place)?;
    if field.tag != row.tag || !length_allowed(row.length, field.length) {
        return Err(Refusal::Form);
    }
    Ok(field)
}
