// A reader that holds a lent record and a place in it, and hands out the record's fields in turn.
#![tactic(auto)]

ghost use Rattle.std.specs.Prelude.{◌≡◌};
ghost use Rattle.rules.specs.Answers.{code_of};
ghost use Rattle.rules.specs.Refusals.{first_refusal};
ghost use Rattle.fields.specs.FieldAt.{field_at, field_answer, field_rules};
ghost use Rattle.reader.specs.Reader.{place_after, reader_at, moved_on};

use fields::Field;
use rules::Refusal;

// A lent record, and the place where its next field is read.
#[derive(Drop)]
pub struct RecordReader<'a> {
    pub bytes: &'a [u8],
    pub place: usize,
}

impl<'a> RecordReader<'a> {
    // The reader of a record, before its first field.
    pub fn new(bytes: &'a [u8]) -> RecordReader<'a>
        ensures { result ≡ reader_at bytes.entry 0 }
    {
        RecordReader { bytes, place: 0 }
    }

    // The place where the next field is read.
    pub fn place(&self) -> usize
        ensures { result ≡ self.now.place }
    {
        self.place
    }

    // The field at the reader's place, and the reader moved on to the next; at the refusal it stays where it is.
    pub fn next_field(&mut self) -> Result<Field, Refusal>
        ensures { (field_answer result ≡ field_at self.old.bytes.now self.old.place)
            × (code_of result ≡ first_refusal (field_rules self.old.bytes.now self.old.place))
            × (self.new ≡ moved_on self.old) }
    {
        let field = fields::read_field(self.bytes, self.place)?;
        self.place = field.next;
        Ok(field)
    }
}

// The field of this number, from 0, of a record; the first refusal ends the reading. Its parameters are plain: a
// caller's proof has no reader in it.
pub fn field(bytes: &[u8], number: usize) -> Result<Field, Refusal>
    ensures { (field_answer result ≡ field_at bytes.now (place_after number bytes.now 0))
        × (code_of result ≡ first_refusal (field_rules bytes.now (place_after number bytes.now 0))) }
{
    let mut reader = RecordReader::new(bytes);
    for _ in 0..number {
        reader.next_field()?;
    }
    reader.next_field()
}
