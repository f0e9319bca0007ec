// The form of a record: tagged fields in order, each once, nothing after.
ghost use Rattle.std.specs.Prelude.{◌≡◌, IfOk};
ghost use Rattle.record.specs.Form.{parse};
ghost use Rattle.record.specs.ParsedRecord.{parsed_record};
ghost use Rattle.record.specs.Answers.{record_answer, parsed_of, SegmentPathIn, EntryPathIn};

use crate::ParsedRecord;
use crate::layout::{COMMITMENT, ENTRY_PATH, NUMBER, OFFSET, PLACE, SEGMENT_PATH, SIZE};
use fields::field_for;
use rules::Refusal;

// The fields of a record, where they stand in the order of the table, each once, with nothing after; else `Form`. The
// two paths are parts of the lent record itself.
pub fn parse(record: &[u8]) -> Result<ParsedRecord<'_>, Refusal>
    ensures places { record_answer «record».entry result ≡ parsed_record «record».now }
    ensures contents { parsed_of result ≡ parse «record».now }
    ensures segment_path_in { IfOk result (λ x. SegmentPathIn «record».entry x) }
    ensures entry_path_in { IfOk result (λ x. EntryPathIn «record».entry x) }
{
    let commitment = field_for(record, 0, COMMITMENT)?;
    let offset = field_for(record, commitment.next, OFFSET)?;
    let size = field_for(record, offset.next, SIZE)?;
    let place = field_for(record, size.next, PLACE)?;
    let segment_path = field_for(record, place.next, SEGMENT_PATH)?;
    let entry_path = field_for(record, segment_path.next, ENTRY_PATH)?;
    let number = field_for(record, entry_path.next, NUMBER)?;
    if number.next < record.len() {
        return Err(Refusal::Form);
    }
    Ok(ParsedRecord {
        commitment: octets::array_at(record, commitment.start),
        offset: octets::read_u64(record, offset.start),
        size: octets::read_u64(record, size.start),
        place: octets::read_u64(record, place.start),
        segment_path: &record[segment_path.start..segment_path.next],
        entry_path: &record[entry_path.start..entry_path.next],
        number: octets::read_u64(record, number.start),
    })
}
