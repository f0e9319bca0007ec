// Lent deals.
ghost use Rattle.std.specs.Prelude.{◌≡◌};
ghost use Rattle.lent.specs.LentDeal.{lent_deal};
ghost use Rattle.index.specs.Tally.{tally_answer};
ghost use Rattle.index.specs.Find.{find_numbers};
ghost use Rattle.audit.specs.Audit.{audit_code, audited_states};
ghost use Rattle.vizhuthamen.specs.Export.{lent_output};

// The state of every slot of a deal.
#[unsafe(no_mangle)]
pub extern "C" fn vz_audit(deal: &[u8], states: &mut [u8]) -> u32
    ensures value { result ≡ audit_code deal.now states.old }
    ensures states_after { states.new ≡ audited_states deal.now states.old }
{
    rules::code_of(audit::audit(deal, states)) as u32
}

// How many slots of a deal's index are blank, damaged and valid.
#[unsafe(no_mangle)]
pub extern "C" fn vz_tally(deal: &[u8], blank: &mut u64, damaged: &mut u64, valid: &mut u64) -> u32
    ensures value { result ≡ (tally_answer deal.now).code }
    ensures blank_after { blank.new ≡ lent_output result (tally_answer deal.now).blank blank.old }
    ensures damaged_after { damaged.new
        ≡ lent_output result (tally_answer deal.now).damaged damaged.old }
    ensures valid_after { valid.new ≡ lent_output result (tally_answer deal.now).valid valid.old }
{
    match index::tally(deal) {
        Ok(tallied) => {
            *blank = tallied.blank;
            *damaged = tallied.damaged;
            *valid = tallied.valid;
            0
        }
        Err(refusal) => refusal.code() as u32,
    }
}

// Where a segment with this commitment is kept in a deal.
#[unsafe(no_mangle)]
pub extern "C" fn vz_find(
    deal: &[u8],
    commitment: &[u8],
    offset: &mut u64,
    size: &mut u64,
    place: &mut u64,
) -> u32
    ensures value { result ≡ (find_numbers (lent_deal deal.now) commitment.now).code }
    ensures offset_after { offset.new
        ≡ lent_output result (find_numbers (lent_deal deal.now) commitment.now).offset
        offset.old }
    ensures size_after { size.new
        ≡ lent_output result (find_numbers (lent_deal deal.now) commitment.now).size
        size.old }
    ensures place_after { place.new
        ≡ lent_output result (find_numbers (lent_deal deal.now) commitment.now).place
        place.old }
{
    match index::find_numbers(deal, commitment) {
        Ok(found) => {
            *offset = found.offset;
            *size = found.size;
            *place = found.place;
            0
        }
        Err(refusal) => refusal.code() as u32,
    }
}
