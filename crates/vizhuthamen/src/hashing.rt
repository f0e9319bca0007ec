// SHA-256 and commitments.
ghost use Rattle.std.specs.Prelude.{◌≡◌};
ghost use Rattle.sha256.specs.Answers.{hashed};
ghost use Rattle.merkle.specs.Commitment.{committed};
ghost use Rattle.vizhuthamen.specs.Export.{lent_code, lent_output};

use crate::output::WRONG_LENGTH;

// The SHA-256 digest of a message.
#[unsafe(no_mangle)]
pub extern "C" fn vz_sha256(message: &[u8], digest: &mut [u8]) -> u32
    ensures value { result ≡ lent_code 32 digest.old (hashed message.now).code }
    ensures digest_after { digest.new ≡ lent_output result (hashed message.now).digest digest.old }
{
    if digest.len() != 32 {
        return WRONG_LENGTH;
    }
    match sha256::sha256(message) {
        Ok(bytes) => {
            digest.copy_from_slice(&bytes);
            0
        }
        Err(refusal) => refusal.code() as u32,
    }
}

// The commitment of a run.
#[unsafe(no_mangle)]
pub extern "C" fn vz_commitment(run: &[u8], node: &mut [u8]) -> u32
    ensures value { result ≡ lent_code 32 node.old (committed run.now).code }
    ensures node_after { node.new ≡ lent_output result (committed run.now).node node.old }
{
    if node.len() != 32 {
        return WRONG_LENGTH;
    }
    match merkle::commitment(run) {
        Ok(commitment) => {
            node.copy_from_slice(&commitment);
            0
        }
        Err(refusal) => refusal.code() as u32,
    }
}
