// The tally of a lent deal's index: how many slots are blank, damaged and valid.
ghost use Rattle.std.specs.Prelude.{◌≡◌, Ok};
ghost use Rattle.index.specs.Tally.{tallied_as, counts_of, tally_answer};

use crate::Tallied;
use entries::EntryKind;
use lent::Lent;
use rules::Refusal;

// The three counts.
fn counts_of(deal: &Lent) -> Tallied
    ensures { tallied_as (Ok result) ≡ counts_of deal.now.bytes.now }
{
    let deal_size = deal.bytes.len() as u64;
    let mut counts = Tallied {
        blank: 0,
        damaged: 0,
        valid: 0,
    };
    for i in 0..sizes::entry_count(deal_size) {
        let place = sizes::slot_place(deal_size, i) as usize;
        let end = place + 64;
        match entries::kind_of(&deal.bytes[place..end]) {
            EntryKind::Blank => counts.blank += 1,
            EntryKind::Damaged => counts.damaged += 1,
            EntryKind::Valid => counts.valid += 1,
        }
    }
    counts
}

// How many slots of a lent deal's index are blank, damaged and valid. 2 for a deal size that is not allowed, 11 for a
// deal with stray bits.
pub fn tally(deal: &[u8]) -> Result<Tallied, Refusal>
    ensures { tallied_as result ≡ tally_answer deal.now }
{
    Ok(counts_of(&Lent::new(deal, None)?))
}
