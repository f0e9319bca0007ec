// Made-up calls: numbers that any program can work out again, and the call that each of them stands for.
ghost use Rattle.std.specs.Prelude.{◌<◌, ◌≤◌};

// The kinds of calls.
#[derive(Clone, Copy, Debug, PartialEq, Eq)]
pub(crate) enum Kind {
    Booking,
    Cancelling,
    Collecting,
}

// The buffers that a call may lend one byte too short.
#[derive(Clone, Copy, Debug, PartialEq, Eq)]
pub(crate) enum Buffer {
    Deal,
    Table,
    Tree,
    Second,
    SecondTable,
}

// A call: its kind, whether a tree is in hand, whose it is; which segment is booked, and its T; which entry place is
// cancelled; which buffer is lent too short, none for most numbers.
#[derive(Clone, Copy)]
pub(crate) struct Call {
    pub(crate) kind: Kind,
    pub(crate) with_tree: bool,
    pub(crate) house: u8,
    pub(crate) segment: u8,
    pub(crate) size: u64,
    pub(crate) place: u64,
    pub(crate) short: Option<Buffer>,
}

impl Call {
    // Whether a buffer is lent too short.
    pub(crate) fn shortens(&self, buffer: Buffer) -> bool {
        self.short == Some(buffer)
    }
}

// The number after a number other than 0, of the 2^64 - 1 that come in turn (Marsaglia's xorshift).
pub(crate) fn next_number(x: u64) -> u64 {
    let a = x ^ (x << 13);
    let b = a ^ (a >> 7);
    b ^ (b << 17)
}

// Of 16: 8 bookings, 7 cancellations, a collection.
fn kind_of(digit: u64) -> Kind {
    if digit < 8 {
        return Kind::Booking;
    }
    if digit < 15 {
        return Kind::Cancelling;
    }
    Kind::Collecting
}

// Of 64: each of the five buffers once.
fn short_of(digit: u64) -> Option<Buffer> {
    match digit {
        0 => Some(Buffer::Deal),
        1 => Some(Buffer::Table),
        2 => Some(Buffer::Tree),
        3 => Some(Buffer::Second),
        4 => Some(Buffer::SecondTable),
        _ => None,
    }
}

// Of 32: 15 for each house, and two that are none.
fn house_of(digit: u64) -> u8 {
    if digit < 15 {
        return 1;
    }
    if digit < 30 {
        return 2;
    }
    if digit < 31 {
        return 0;
    }
    3
}

// Of 16: segment 1 ten times, so that it is booked again, three others five times, and one with stray bits.
fn segment_of(digit: u64) -> u8 {
    if digit == 15 {
        return 4;
    }
    if digit < 8 {
        return 1;
    }
    (digit % 4) as u8
}

// A number below a bound.
fn below(bound: u64, digits: u64) -> u64
    requires { 0 < bound }
    ensures { result < bound }
{
    digits % bound
}

// Half of the bytes of a deal, a quarter, an eighth or a sixteenth of them.
fn share(half: u64, digit: u64) -> u64
    requires { 8 ≤ half }
    ensures { (0 < result) × (result ≤ half) }
{
    if digit == 0 {
        return half;
    }
    if digit == 1 {
        return half / 2;
    }
    if digit == 2 {
        return half / 4;
    }
    half / 8
}

// The T of a booking in a deal of twice as many bytes: of 32 one is empty and one too long, half are as large as an
// area or one byte less, the others anything up to an area.
fn size_of(half: u64, digits: u64) -> u64
    requires { (8 ≤ half) × (half ≤ 2048) }
{
    let class = digits % 32;
    let most = share(half, digits / 32 % 4);
    let rest = digits / 128;
    if class == 0 {
        return 0;
    }
    if class == 1 {
        return half + 1 + below(half, rest);
    }
    if class < 18 {
        return most - rest % 2;
    }
    1 + below(most, rest)
}

// The entry place of a cancellation: of 32 four are no place of the index area, the others are those of its slots.
fn place_of(size: u64, digits: u64) -> u64
    requires { (512 ≤ size) × (size ≤ 4096) }
{
    let start = size - 256;
    let place = start + 64 * (digits % 4);
    let wrong = digits / 4 % 32;
    if wrong == 0 {
        return place + 32;
    }
    if wrong == 1 {
        return start - 64;
    }
    if wrong == 2 {
        return size;
    }
    if wrong == 3 {
        return place + 4294967296;
    }
    place
}

// The call that a number stands for on a deal of this many bytes.
pub(crate) fn call_of(size: u64, tree_in_hand: bool, number: u64) -> Call
    requires { (512 ≤ size) × (size ≤ 4096) }
{
    Call {
        kind: kind_of(number % 16),
        with_tree: tree_in_hand || number / 16 % 2 == 1,
        house: house_of(number / 32 % 32),
        segment: segment_of(number / 1024 % 16),
        size: size_of(size / 2, number / 16384),
        place: place_of(size, number / 16384),
        short: short_of(number / 4294967296 % 64),
    }
}

// Byte i of a made-up segment: of segment 0 a zero, of segment 4 one that makes stray bits, of others one that makes
// none.
pub(crate) fn segment_byte(segment: u8, i: usize) -> u8 {
    if segment == 0 {
        return 0;
    }
    if segment == 4 {
        return 255;
    }
    let byte = (61 * (segment as usize) + 7 * (i % 32) + i / 32 % 32) % 251;
    if i % 32 == 31 {
        return (byte % 64) as u8;
    }
    byte as u8
}
