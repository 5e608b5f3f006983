// Protected identifiers, built and read by the standard's list of them.
ghost use Rattle.std.specs.Prelude.{◌≡◌, ◌%◌, ◌<◌, ltb, [], ◌∷◌};
ghost use Rattle.wire.specs.Answers.{told};
ghost use Rattle.refusal.specs.Answers.{test, first_failing};
ghost use Rattle.wire.specs.Identifier.{protected_byte, protected_of, right_parity, read_of};

use crate::refused;
use refusal::Refusal;

// The protected identifier of an identifier below 64.
pub fn build(id: u8) -> Result<u8, Refusal>
    ensures value { result ≡ protected_of id }
    ensures told { told result ≡ first_failing (test 11 (ltb id 64) ∷ []) (protected_byte id ∷ []) }
{
    if id < 64 {
        Ok(protected_byte(id))
    } else {
        refused()
    }
}

// The identifier of a protected identifier with right parity.
pub fn read(protected: u8) -> Result<u8, Refusal>
    ensures value { result ≡ read_of protected }
    ensures told { told result ≡ first_failing (test 11 (right_parity protected) ∷ []) (protected % 64 ∷ []) }
{
    let id = protected % 64;
    if protected_byte(id) == protected {
        Ok(id)
    } else {
        refused()
    }
}

// The protected identifier of an identifier, as the list has it.
pub(crate) fn protected_byte(id: u8) -> u8
    requires { id < 64 }
    ensures { result ≡ protected_byte id }
{
    PROTECTED[id as usize]
}

// ISO 17987-3, Table A.2: the protected identifier of each identifier, which stands beside it.
pub(crate) const PROTECTED: [u8; 64] = [
    0x80, // 0
    0xC1, // 1
    0x42, // 2
    0x03, // 3
    0xC4, // 4
    0x85, // 5
    0x06, // 6
    0x47, // 7
    0x08, // 8
    0x49, // 9
    0xCA, // 10
    0x8B, // 11
    0x4C, // 12
    0x0D, // 13
    0x8E, // 14
    0xCF, // 15
    0x50, // 16
    0x11, // 17
    0x92, // 18
    0xD3, // 19
    0x14, // 20
    0x55, // 21
    0xD6, // 22
    0x97, // 23
    0xD8, // 24
    0x99, // 25
    0x1A, // 26
    0x5B, // 27
    0x9C, // 28
    0xDD, // 29
    0x5E, // 30
    0x1F, // 31
    0x20, // 32
    0x61, // 33
    0xE2, // 34
    0xA3, // 35
    0x64, // 36
    0x25, // 37
    0xA6, // 38
    0xE7, // 39
    0xA8, // 40
    0xE9, // 41
    0x6A, // 42
    0x2B, // 43
    0xEC, // 44
    0xAD, // 45
    0x2E, // 46
    0x6F, // 47
    0xF0, // 48
    0xB1, // 49
    0x32, // 50
    0x73, // 51
    0xB4, // 52
    0xF5, // 53
    0x76, // 54
    0x37, // 55
    0x78, // 56
    0x39, // 57
    0xBA, // 58
    0xFB, // 59
    0x3C, // 60
    0x7D, // 61
    0xFE, // 62
    0xBF, // 63
];
