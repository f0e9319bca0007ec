// A segment to be booked.
ghost use Rattle.std.specs.Prelude.{◌≡◌, true, ◌+◌, ◌≤◌, length};
ghost use Rattle.sizes.specs.Sizes.{segment_size_allowed, area};
ghost use Rattle.booking.specs.Write.{segment_commitment, written_at};

use lent::Lent;
use room::Placed;

// A segment, with its commitment.
#[derive(Clone, Copy)]
pub(crate) struct Segment<'a> {
    pub(crate) bytes: &'a [u8],
    pub(crate) commitment: [u8; 32],
    ghost committed: { commitment ≡ segment_commitment bytes.now },
}

impl<'a> Segment<'a> {
    // The segment of these bytes, whose size is allowed in a lent deal. They are hashed.
    pub(crate) fn new(deal: &Lent, bytes: &'a [u8]) -> Segment<'a>
        requires { segment_size_allowed (length deal.now.bytes.now) (length bytes.now) ≡ true }
        ensures { result.bytes.now ≡ bytes.now }
    {
        let level = sizes::segment_level(bytes.len() as u64);
        Segment {
            bytes,
            commitment: merkle::root_of_filled(bytes, level),
        }
    }

    // How many bytes it has.
    pub(crate) fn size(&self) -> u64
        ensures { result ≡ length self.now.bytes.now }
    {
        self.bytes.len() as u64
    }

    // How many bytes it takes up in a deal.
    pub(crate) fn area(&self) -> u64
        ensures { result ≡ area (length self.now.bytes.now) }
    {
        sizes::area(self.size())
    }

    // Writes the segment, zeros after it to its area's end, and its entry.
    pub(crate) fn put(&self, deal: &mut [u8], at: Placed)
        requires segment_len_bound { length self.now.bytes.now ≤ area (length self.now.bytes.now) }
        requires segment_in_bounds { at.offset + area (length self.now.bytes.now) ≤ length deal.old }
        requires place_in_bounds { at.place + 64 ≤ length deal.old }
        ensures { deal.new ≡ written_at deal.old self.now.bytes.now self.now.commitment at.offset at.place }
    {
        let entry = entries::entry_of(self.commitment, at.offset, self.size());
        let area = self.area() as usize;
        octets::put_filled(deal, at.offset as usize, self.bytes, area);
        octets::put_array(deal, at.place as usize, entry);
    }
}
