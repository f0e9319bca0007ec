// The commitment of bytes that arrive in pieces. The state is handed in and handed back: it keeps the bytes of the node
// that is not whole yet, and one waiting node for each height.
#![tactic(auto)]

mod packed; // packed.rt: the state as bytes
mod parts; // parts.rt: the parts that a piece is taken by
mod waiting; // waiting.rt: the waiting nodes

ghost use Rattle.std.specs.Prelude.{◌≡◌};
ghost use Rattle.stream.specs.Stream.{started, take_piece, lasting_code, ending, ended_answer};
ghost use Rattle.stream.specs.Stream as S;

pub use packed::{STATE_LENGTH, pack, unpack};
use rules::Refusal;

// The largest number of bytes: 2^36.
const LARGEST: u64 = 68719476736;

// The bytes of the waiting nodes: 32 for each of 32 heights.
const WAITING: usize = 1024;

// The state. `code` is 0, or the code that sticks until a new start. It is a byte and no Refusal: `unpacked` makes a
// state of any bytes, and `packed` gives its code back as it stood.
#[derive(Drop)]
pub struct Stream {
    pub code: u8,
    pub count: u64,
    pub partial: [u8; 32],
    pub waiting: [u8; WAITING],
}

// What the bytes come to at the end: their commitment and their number.
#[derive(Clone, Copy)]
pub struct Ended {
    pub node: [u8; 32],
    pub count: u64,
}

// The state with a code that sticks.
fn failed_with(code: u8) -> Stream
    ensures { result ≡ S.failed_with code }
{
    Stream {
        code,
        count: 0,
        partial: [0u8; 32],
        waiting: [0u8; WAITING],
    }
}

// The code that a state stands for: 0, 11 or 2. It is a number, since a packed state may hold any (`unpacked`).
pub fn lasting_code(code: u8) -> u8
    ensures { result ≡ lasting_code code }
{
    match code {
        0 => 0,
        11 => 11,
        _ => 2,
    }
}

impl Stream {
    // A new start.
    pub fn new() -> Stream
        ensures { result ≡ started }
    {
        failed_with(0)
    }

    // One more piece, of any length, which is taken by parts. In place: `take` costs copies of the state.
    pub fn update(&mut self, piece: &[u8])
        ensures { self.new ≡ take_piece self.old piece.now }
    {
        if self.code != 0 {
            return;
        }
        if let Err(refusal) = self.take_parts(piece) {
            *self = failed_with(refusal.code());
        }
    }

    // The state after one more piece.
    pub fn take(mut self, piece: &[u8]) -> Stream
        ensures { result ≡ take_piece self piece.now }
    {
        self.update(piece);
        self
    }

    // The answer for all bytes taken so far. Size: their number is no power of two from 32 to 2^36. StrayBits: a node
    // among them has stray bits.
    pub fn end(self) -> Result<Ended, Refusal>
        ensures { ended_answer result ≡ ending self }
    {
        if self.code == 11 {
            return Err(Refusal::StrayBits);
        }
        if self.code != 0 {
            return Err(Refusal::Size);
        }
        if !pow2::is_power_between(self.count, 32, LARGEST) {
            return Err(Refusal::Size);
        }
        let height = (pow2::log2(self.count) - 5) as usize;
        // Behind the tests: a refusal costs no copy of the nodes.
        let waiting = self.waiting;
        let node = octets::array_at(&waiting, 32 * height);
        Ok(Ended {
            node,
            count: self.count,
        })
    }
}
