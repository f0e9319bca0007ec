// Inclusion records: their fields, and the check.
#![tactic(auto)]

mod form; // form.rt: the fields of a record, from its bytes alone
mod judgement; // judgement.rt: the judgement over the fields, codes 21, 4 to 10 and 19
mod layout; // layout.rt: the table of a record's fields

ghost use Rattle.std.specs.Prelude.{◌≡◌, IfOk};
ghost use Rattle.rules.specs.Answers.{code_of};
ghost use Rattle.record.specs.Form.{parse, parsed};
ghost use Rattle.record.specs.Answers.{read_fields, SegmentPathIn, EntryPathIn};
ghost use Rattle.record.specs.Check.{deal_terms, check_of};

pub use form::parse;
pub use layout::{COMMITMENT, ENTRY_PATH, FIXED_LENGTH, NUMBER, OFFSET, PLACE, SEGMENT_PATH, SIZE};
use rules::Refusal;

// The fields of a record: its commitment and numbers, and its paths, which are parts of the record itself.
#[derive(Clone, Copy)]
pub struct ParsedRecord<'a> {
    pub commitment: [u8; 32],
    pub offset: u64,
    pub size: u64,
    pub place: u64,
    pub segment_path: &'a [u8],
    pub entry_path: &'a [u8],
    pub number: u64,
}

// The fields of a record that is accepted against a deal's commitment, size and number; else the refusal: 1 to 3 as
// numbered, 21, 4 to 8 as numbered, 19, 9, 10.
// Commitment, size and number are three parameters: C and the program `check_record` give them as three values, and
// they go down one call.
pub fn accepted<'a>(
    commitment: &[u8],
    size: u64,
    number: u64,
    record: &'a [u8],
) -> Result<ParsedRecord<'a>, Refusal>
    ensures code { code_of result ≡ check_of (deal_terms commitment.now size number) «record».now }
    ensures fields { IfOk result (λ x. parse «record».now ≡ parsed (read_fields x)) }
    ensures segment_path_in { IfOk result (λ x. SegmentPathIn «record».entry x) }
    ensures entry_path_in { IfOk result (λ x. EntryPathIn «record».entry x) }
{
    if commitment.len() != 32 {
        return Err(Refusal::CommitmentLength);
    }
    if !sizes::deal_size_allowed(size) {
        return Err(Refusal::Size);
    }
    // The named form of the record check asks that this refusal is named here, so it is no `?`.
    let Ok(fields) = parse(record) else {
        return Err(Refusal::Form);
    };
    judgement::judge(commitment, size, number, &fields)?;
    Ok(fields)
}

// The check of a record against a deal's commitment, size and number, with the same refusals.
pub fn check(commitment: &[u8], size: u64, number: u64, record: &[u8]) -> Result<(), Refusal>
    ensures { code_of result ≡ check_of (deal_terms commitment.now size number) «record».now }
{
    accepted(commitment, size, number, record)?;
    Ok(())
}
