// What stands on the bus: protected identifiers and checksums (document 01, "Bytes on the bus").
#![tactic(auto)]

use refusal::Refusal;

pub mod checksum;
pub mod identifier;

ghost use Rattle.std.specs.Prelude.{◌≡◌};
ghost use Rattle.refusal.specs.Numbers.{frame};
ghost use Rattle.wire.specs.Answers.{refused_with};

// The refusal of an identifier, a parity or a number of bytes that no frame has.
pub(crate) fn refused() -> Result<u8, Refusal>
    ensures { result ≡ refused_with frame }
{
    Err(Refusal::of(Refusal::FRAME))
}
