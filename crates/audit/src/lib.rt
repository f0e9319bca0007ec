// The audit of a deal's index: the state of every slot, each area hashed at most once.
#![tactic(auto)]

ghost use Rattle.std.specs.Prelude.{◌≡◌, true, ◌≤◌, ◌<◌, length};
ghost use Rattle.rules.specs.Answers.{code_of};
ghost use Rattle.octets.specs.Splice.{splice};
ghost use Rattle.sizes.specs.Sizes.{entry_count, slot_place};
ghost use Rattle.lent.specs.LentDeal.{lent_deal};
ghost use Rattle.lent.specs.Seen.{seen};
ghost use Rattle.audit.specs.Audit.{stands_at, slot_state, slot_states, audit_code, audited_states};
ghost use Rattle.audit.specs.States.{number};
ghost use Rattle.audit.specs.Gathered.{Gathered};

use entries::EntryKind;
use lent::Lent;
use room::Range;
use rules::Refusal;

// What an audit says of a slot. The numbers are those of `number`.
#[derive(Clone, Copy, Debug, PartialEq, Eq)]
pub enum SlotState {
    Blank = 0,
    Damaged = 1,
    NotStanding = 2, // valid, but it does not stand
    Overlapping = 3, // it stands and overlaps a standing entry in a lower slot
    OtherCommitment = 4, // it stands, but its commitment is not that of its bytes
    Kept = 5,
}

impl SlotState {
    // The byte for a state.
    pub fn code(self) -> u8
        ensures { result ≡ number self }
    {
        self as u8
    }
}

// The state of an entry that stands in slot i, whose bytes are those of its range. They are hashed only where they
// overlap those of no lower slot, so that no area is hashed twice.
fn standing_state(deal: &Lent, place: usize, ranges: &[Range; 128], i: usize) -> SlotState
    requires gathered { Gathered deal.now ranges.now × (i < entry_count (length deal.now.bytes.now)) }
    requires place_value { (place ≡ slot_place (length deal.now.bytes.now) i)
        × (stands_at deal.now.bytes.now i ≡ true) }
    ensures { number result ≡ slot_state deal.now.bytes.now i }
{
    if room::lowest_overlap(&ranges[..i], ranges[i]).is_some() {
        return SlotState::Overlapping;
    }
    match index::kept_at(deal, place) {
        Some(_) => SlotState::Kept,
        None => SlotState::OtherCommitment,
    }
}

// The state of slot i.
fn slot_state(deal: &Lent, ranges: &[Range; 128], i: usize) -> SlotState
    requires { Gathered deal.now ranges.now × (i < entry_count (length deal.now.bytes.now)) }
    ensures { number result ≡ slot_state deal.now.bytes.now i }
{
    let place = sizes::slot_place(deal.bytes.len() as u64, i as u64) as usize;
    let end = place + 64;
    match entries::kind_of(&deal.bytes[place..end]) {
        EntryKind::Blank => SlotState::Blank,
        EntryKind::Damaged => SlotState::Damaged,
        EntryKind::Valid if ranges[i].area == 0 => SlotState::NotStanding,
        EntryKind::Valid => standing_state(deal, place, ranges, i),
    }
}

// Writes the states of the slots of a deal without a tree, one byte each, from the first byte on.
fn write_states(deal: &Lent, states: &mut [u8])
    requires alone { seen deal.now ≡ lent_deal deal.now.bytes.now }
    requires slots_in_bounds { entry_count (length deal.now.bytes.now) ≤ length states.old }
    ensures { states.new
        ≡ splice states.old 0 (slot_states deal.now.bytes.now (entry_count (length deal.now.bytes.now))) }
{
    let ranges = ranges::gather(deal.bytes);
    let slots = sizes::entry_count(deal.bytes.len() as u64) as usize;
    for i in 0..slots {
        states[i] = slot_state(deal, &ranges, i).code();
    }
}

// The audit of a lent deal: for every slot the byte of its state, the lowest that applies. Bytes past the number of
// slots stay. 2 for a deal size that is not allowed, 11 for a deal with stray bits, 12 for fewer bytes than slots; then
// nothing is written.
pub fn audit(deal: &[u8], states: &mut [u8]) -> Result<(), Refusal>
    ensures value { code_of result ≡ audit_code deal.now states.old }
    ensures states_after { states.new ≡ audited_states deal.now states.old }
{
    let lent = Lent::new(deal, None)?;
    if (states.len() as u64) < sizes::entry_count(deal.len() as u64) {
        return Err(Refusal::Output);
    }
    write_states(&lent, states);
    Ok(())
}
