// Checksums over the data bytes of a frame.
ghost use Rattle.std.specs.Prelude.{◌≡◌, ◌<◌, length, [], ◌∷◌};
ghost use Rattle.wire.specs.Answers.{told};
ghost use Rattle.refusal.specs.Answers.{first_failing};
ghost use Rattle.wire.specs.Checksum.{with_carry, sum, covered, model_of, checksum_byte, checksum_of, checksum_tests};

use crate::identifier::protected_byte;
use crate::refused;
use refusal::Refusal;

// Which bytes a checksum covers: classic the data alone, enhanced the protected identifier too.
#[derive(Clone, Copy)]
pub enum Model {
    Classic,
    Enhanced,
}

// The checksum of 1 to 8 data bytes under an identifier; 60 to 63 use classic whatever is wished.
pub fn of(id: u8, wish: Model, data: &[u8]) -> Result<u8, Refusal>
    ensures value { result ≡ checksum_of id wish «data».now }
    ensures told { told result ≡ first_failing (checksum_tests id (length «data».now)) (checksum_byte id wish «data».now ∷ []) }
{
    if id < 64 && 1 <= data.len() && data.len() <= 8 {
        Ok(255 - sum(start(id, wish), data))
    } else {
        refused()
    }
}

// A running sum and one more byte: 255 is subtracted where the sum is 256 or more.
pub fn with_carry(sum: u8, byte: u8) -> u8
    ensures { result ≡ with_carry sum byte }
{
    let added = sum as u16 + byte as u16;
    if 255 < added {
        (added - 255) as u8
    } else {
        added as u8
    }
}

// The sum before the first data byte.
fn start(id: u8, wish: Model) -> u8
    requires { id < 64 }
    ensures { result ≡ sum 0 (covered (model_of id wish) id []) }
{
    if 60 <= id {
        return 0;
    }
    match wish {
        Model::Classic => 0,
        Model::Enhanced => protected_byte(id),
    }
}

// The running sum after all the data bytes.
fn sum(from: u8, data: &[u8]) -> u8
    ensures { result ≡ sum from «data».now }
{
    let mut total = from;
    for &byte in data {
        total = with_carry(total, byte);
    }
    total
}
