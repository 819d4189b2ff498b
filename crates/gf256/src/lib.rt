// The finite field GF(2^8) of FIPS 197, section 4, and doubling in it.
#![tactic(auto)]

ghost use Rattle.std.specs.Prelude.{◌≡◌};
ghost use Rattle.gf256.specs.Field.{◌·◌};

// Twice a byte, XTIMES of section 4.2, in the standard's two cases: shifted to the left by one place where the top bit is clear, and with {1b}
// added besides where it is set.
#[tactic(auto, using(crate::proofs::Products::doubled_below, crate::proofs::Products::doubled_above))]
pub fn xtimes(x: u8) -> u8
    ensures { result ≡ 2 · x }
{
    let added = if x < 128 { 0x00 } else { 0x1b };
    (x << 1) ^ added
}
