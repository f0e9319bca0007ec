// The check of a record as the program `check_record` reads it: commitment, deal size, deal number and record in one
// run of bytes.
#![tactic(auto)]

ghost use Rattle.std.specs.Prelude.{◌≡◌};
ghost use Rattle.rules.specs.Answers.{code_of};
ghost use Rattle.check_input.specs.Input.{check_input};

use rules::Refusal;

// The check of what was read: 1 under 32 bytes, 2 under 48, 3 for a record of more than 4,096 bytes, else the check's.
pub fn check_input(input: &[u8]) -> Result<(), Refusal>
    ensures { code_of result ≡ check_input input.now }
{
    if input.len() < 32 {
        return Err(Refusal::CommitmentLength);
    }
    if input.len() < 48 {
        return Err(Refusal::Size);
    }
    if 4144 < input.len() {
        return Err(Refusal::Form);
    }
    let size = octets::read_u64(input, 32);
    let number = octets::read_u64(input, 40);
    record::check(&input[..32], size, number, &input[48..])
}
