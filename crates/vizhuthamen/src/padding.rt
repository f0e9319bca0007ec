// Fr32 padding: raw archives to segments and back.
ghost use Rattle.std.specs.Prelude.{◌≡◌};
ghost use Rattle.fr32.specs.Answers.{pad_answer, pad_output, unpad_answer, unpad_output};
ghost use Rattle.vizhuthamen.specs.Export.{lent_output};

// The segment of raw bytes.
#[unsafe(no_mangle)]
pub extern "C" fn vz_fr32_pad(raw: &[u8], segment: &mut [u8], length: &mut u64) -> u32
    ensures value { result ≡ (pad_answer raw.now segment.old).code }
    ensures segment_after { segment.new ≡ pad_output raw.now segment.old }
    ensures length_after { length.new
        ≡ lent_output result (pad_answer raw.now segment.old).length length.old }
{
    match fr32::pad(raw, segment) {
        Ok(written) => {
            *length = written as u64;
            0
        }
        Err(refusal) => refusal.code() as u32,
    }
}

// The raw bytes of a segment, as many as the caller names.
#[unsafe(no_mangle)]
pub extern "C" fn vz_fr32_unpad(
    raw_length: u64,
    segment: &[u8],
    raw: &mut [u8],
    length: &mut u64,
) -> u32
    ensures value { result ≡ (unpad_answer raw_length segment.now raw.old).code }
    ensures raw_after { raw.new ≡ unpad_output raw_length segment.now raw.old }
    ensures length_after { length.new
        ≡ lent_output result (unpad_answer raw_length segment.now raw.old).length
        length.old }
{
    match fr32::unpad(raw_length, segment, raw) {
        Ok(written) => {
            *length = written as u64;
            0
        }
        Err(refusal) => refusal.code() as u32,
    }
}
