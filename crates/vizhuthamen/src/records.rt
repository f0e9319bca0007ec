// Inclusion records.
ghost use Rattle.std.specs.Prelude.{◌≡◌};
ghost use Rattle.record.specs.Check.{deal_terms, check_of};
ghost use Rattle.fields.specs.FieldAt.{field_at, field_code};
ghost use Rattle.lent.specs.LentDeal.{lent_deal, tree_deal};
ghost use Rattle.builder.specs.Build.{build_answer, build_output};
ghost use Rattle.vizhuthamen.specs.Export.{lent_output, field_tag, field_start, field_length, field_next};

// Builds the record of the kept entry at a place of a deal with a number.
#[unsafe(no_mangle)]
pub extern "C" fn vz_build(
    deal: &[u8],
    number: u64,
    place: u64,
    record: &mut [u8],
    length: &mut u64,
) -> u32
    ensures value { result ≡ (build_answer (lent_deal deal.now) number place «record».old).code }
    ensures record_after { «record».new
        ≡ build_output (lent_deal deal.now) number place «record».old }
    ensures length_after { length.new
        ≡ lent_output result (build_answer (lent_deal deal.now) number place «record».old).length
        length.old }
{
    match builder::build(deal, number, place, record) {
        Ok(written) => {
            *length = written as u64;
            0
        }
        Err(refusal) => refusal.code() as u32,
    }
}

// The same with the tree beside the deal.
#[unsafe(no_mangle)]
pub extern "C" fn vz_build_with_tree(
    deal: &[u8],
    tree: &[u8],
    number: u64,
    place: u64,
    record: &mut [u8],
    length: &mut u64,
) -> u32
    ensures value { result
        ≡ (build_answer (tree_deal deal.now tree.now) number place «record».old).code }
    ensures record_after { «record».new
        ≡ build_output (tree_deal deal.now tree.now) number place «record».old }
    ensures length_after { length.new ≡ lent_output result
        (build_answer (tree_deal deal.now tree.now) number place «record».old).length
        length.old }
{
    match builder::build_with_tree(deal, tree, number, place, record) {
        Ok(written) => {
            *length = written as u64;
            0
        }
        Err(refusal) => refusal.code() as u32,
    }
}

// The code of the check of a record against a deal's commitment, size and number.
#[unsafe(no_mangle)]
pub extern "C" fn vz_check(commitment: &[u8], size: u64, number: u64, record: &[u8]) -> u32
    ensures { result ≡ check_of (deal_terms commitment.now size number) «record».now }
{
    rules::code_of(record::check(commitment, size, number, record)) as u32
}

// The field at a place of a record.
#[unsafe(no_mangle)]
pub extern "C" fn vz_read_field(
    record: &[u8],
    place: u64,
    tag: &mut u32,
    start: &mut u64,
    length: &mut u64,
    next: &mut u64,
) -> u32
    ensures value { result ≡ field_code (field_at «record».now place) }
    ensures tag_after { tag.new
        ≡ lent_output result (field_tag (field_at «record».now place)) tag.old }
    ensures start_after { start.new
        ≡ lent_output result (field_start (field_at «record».now place)) start.old }
    ensures length_after { length.new
        ≡ lent_output result (field_length (field_at «record».now place)) length.old }
    ensures next_after { next.new
        ≡ lent_output result (field_next (field_at «record».now place)) next.old }
{
    match fields::read_field(record, place as usize) {
        Ok(field) => {
            *tag = field.tag as u32;
            *start = field.start as u64;
            *length = field.length as u64;
            *next = field.next as u64;
            0
        }
        Err(refusal) => refusal.code() as u32,
    }
}
