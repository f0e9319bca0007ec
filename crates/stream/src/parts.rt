// The parts that a piece is taken by: the bytes up to the end of a node, or a block of nodes at once.
ghost use Rattle.std.specs.Prelude.{◌≡◌, true, ◌+◌, ◌%◌, ◌≤◌, ◌<◌, length};
ghost use Rattle.stream.specs.Stream.{largest, take_piece};
ghost use Rattle.stream.specs.Parts.{Block, Part, unless_failed};

use crate::waiting::add_node;
use crate::{LARGEST, Stream};
use rules::Refusal;

// Whether a block of `size` bytes can begin here: all of it is there, within the largest number of bytes, and what
// comes before it is made of such blocks.
fn block_fits(count: u64, left: usize, size: usize) -> bool
    requires { (0 < size) × (count ≤ largest) }
    ensures { result ≡ true → (size ≤ left) × (count + size ≤ largest) × (count % size ≡ 0) }
{
    size <= left && size as u64 <= LARGEST - count && count % (size as u64) == 0
}

// How many bytes the largest block has that begins here.
fn block_length(count: u64, left: usize) -> usize
    requires { (count < largest) × (count % 512 ≡ 0) × (512 ≤ left) }
    ensures { (result ≤ left) × (count + result ≤ largest) × Block count result }
{
    let mut size: usize = 512;
    // It doubles a size and counts no index: a `for` has nothing to run over.
    while block_fits(count, left, 2 * size) {
        size = 2 * size;
    }
    size
}

// How many of the next `left` bytes are taken at once.
fn part_length(count: u64, left: usize) -> usize
    requires { (count < largest) × (0 < left) }
    ensures { (result ≤ left) × Part count result }
{
    if 512 <= left {
        if count % 512 == 0 {
            return block_length(count, left);
        }
    }
    let rest = 32 - (count % 32) as usize;
    if left < rest {
        return left;
    }
    rest
}

impl Stream {
    // Takes bytes that end within a node, or with it. StrayBits: the node is whole and has stray bits.
    fn take_within_node(&mut self, bytes: &[u8]) -> Result<(), Refusal>
        requires no_code { (self.old.code ≡ 0) × (self.old.count + length bytes.now ≤ largest) }
        requires bytes_nonzero { (0 < length bytes.now) × (self.old.count % 32 + length bytes.now ≤ 32) }
        ensures state_after { take_piece self.old bytes.now ≡ unless_failed result self.new }
        ensures code_stays { self.new.code ≡ self.old.code }
    {
        octets::put(&mut self.partial, (self.count % 32) as usize, bytes);
        self.count += bytes.len() as u64;
        if self.count % 32 != 0 {
            return Ok(());
        }
        if !stray::no_stray_bits(&self.partial) {
            return Err(Refusal::StrayBits);
        }
        add_node(&mut self.waiting, 0, self.count / 32 - 1, self.partial);
        Ok(())
    }

    // Takes a block. StrayBits: one of its nodes has stray bits.
    fn take_block(&mut self, block: &[u8]) -> Result<(), Refusal>
        requires no_code { (self.old.code ≡ 0) × (self.old.count + length block.now ≤ largest) }
        requires block { Block self.old.count (length block.now) }
        ensures state_after { take_piece self.old block.now ≡ unless_failed result self.new }
        ensures code_stays { self.new.code ≡ self.old.code }
    {
        if !stray::no_stray_bits(block) {
            return Err(Refusal::StrayBits);
        }
        let size = block.len();
        let height = (pow2::log2(size as u64) - 5) as usize;
        let root = merkle::root_with_last_path(block, height, &mut self.waiting);
        add_node(&mut self.waiting, height, self.count / (size as u64), root);
        self.partial = octets::array_at(block, size - 32);
        self.count += size as u64;
        Ok(())
    }

    // Takes the next part of a piece. StrayBits: a node that it makes whole has stray bits.
    fn take_part(&mut self, bytes: &[u8]) -> Result<(), Refusal>
        requires { (self.old.code ≡ 0) × Part self.old.count (length bytes.now) }
        ensures state_after { take_piece self.old bytes.now ≡ unless_failed result self.new }
        ensures code_stays { self.new.code ≡ self.old.code }
    {
        if bytes.len() <= 32 {
            return self.take_within_node(bytes);
        }
        self.take_block(bytes)
    }

    // Takes a piece by its parts. Size: there are more bytes than the largest number. StrayBits: a node that they make
    // whole has stray bits.
    pub(crate) fn take_parts(&mut self, piece: &[u8]) -> Result<(), Refusal>
        requires { self.old.code ≡ 0 }
        ensures { take_piece self.old piece.now ≡ unless_failed result self.new }
    {
        let mut rest = piece;
        // The parts have lengths of their own, each after the one before: no iterator gives them.
        while !rest.is_empty() {
            if LARGEST <= self.count {
                return Err(Refusal::Size);
            }
            let (part, later) = rest.split_at(part_length(self.count, rest.len()));
            self.take_part(part)?;
            rest = later;
        }
        Ok(())
    }
}
