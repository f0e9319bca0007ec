// The commitment of bytes that arrive in pieces. The caller keeps the state, as bytes.
ghost use Rattle.std.specs.Prelude.{◌≡◌};
ghost use Rattle.stream.specs.Packed.{packed_end};
ghost use Rattle.vizhuthamen.specs.Export.{lent_output};
ghost use Rattle.vizhuthamen.specs.StreamCalls.{new_code, new_state, taken_code, taken_state, end_code};

use crate::output::WRONG_LENGTH;
use stream::{STATE_LENGTH, Stream};

// A new start.
#[unsafe(no_mangle)]
pub extern "C" fn vz_stream_new(state: &mut [u8]) -> u32
    ensures value { result ≡ new_code state.old }
    ensures state_after { state.new ≡ new_state state.old }
{
    if state.len() != STATE_LENGTH {
        return WRONG_LENGTH;
    }
    let start = Stream::new();
    stream::pack(start, state);
    0
}

// One more piece. The answer is the state's code: 0, or the one that sticks.
#[unsafe(no_mangle)]
pub extern "C" fn vz_stream_take(state: &mut [u8], piece: &[u8]) -> u32
    ensures value { result ≡ taken_code state.old piece.now }
    ensures state_after { state.new ≡ taken_state state.old piece.now }
{
    if state.len() != STATE_LENGTH {
        return WRONG_LENGTH;
    }
    let mut taken = stream::unpack(state);
    taken.update(piece);
    let code = stream::lasting_code(taken.code);
    stream::pack(taken, state);
    code as u32
}

// The commitment of all bytes taken so far, and their number.
#[unsafe(no_mangle)]
pub extern "C" fn vz_stream_end(state: &[u8], node: &mut [u8], count: &mut u64) -> u32
    ensures value { result ≡ end_code state.now node.old }
    ensures node_after { node.new ≡ lent_output result (packed_end state.now).node node.old }
    ensures count_after { count.new ≡ lent_output result (packed_end state.now).count count.old }
{
    if state.len() != STATE_LENGTH {
        return WRONG_LENGTH;
    }
    if node.len() != 32 {
        return WRONG_LENGTH;
    }
    match stream::unpack(state).end() {
        Ok(ended) => {
            node.copy_from_slice(&ended.node);
            *count = ended.count;
            0
        }
        Err(refusal) => refusal.code() as u32,
    }
}
