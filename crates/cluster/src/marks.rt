// Marks: the occupied bits of a frame, as one number.
ghost use Rattle.std.specs.Prelude.{◌≡◌, not, ◌||◌, ℕ, ◌+◌, ◌-◌, ◌^◌, ◌≤◌, is_some, IfSome};
ghost use Rattle.wire.specs.Bits.{bit};
ghost use Rattle.signal.specs.Signal.{inside};
ghost use Rattle.cluster.specs.Read.{hits};

// The occupied bits with those from an offset on, where none of these is occupied.
pub(crate) fn with_bits(bits: u64, offset: usize, width: usize) -> Option<u64>
    requires { (1 ≤ width) × (offset + width ≤ 64) }
    ensures free { is_some result ≡ not (hits bits offset width) }
    ensures joined { IfSome result (λ r. (j : ℕ) → bit r j ≡ (bit bits j || inside offset width j)) }
{
    let field = ones(width) << (offset as u32);
    if bits & field == 0 {
        Some(bits | field)
    } else {
        None
    }
}

// The number with this many bits, all 1.
fn ones(width: usize) -> u64
    requires { (1 ≤ width) × (width ≤ 64) }
    ensures { result ≡ 2 ^ width - 1 }
{
    u64::MAX >> ((64 - width) as u32)
}
