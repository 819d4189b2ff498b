// Group numbers read as signed ones, and small signed numbers as group numbers.
#![tactic(auto)]

ghost use Rattle.std.specs.Prelude.{◌≡◌, ◌<◌};
ghost use Rattle.group.specs.Modular.{modulus};
ghost use Rattle.signed.specs.SignedReading.{embed, signed_in};

use group::P;

// The largest number that reads as itself, (p − 1) ÷ 2.
const HALF: u64 = 9223372034707292160;

// A word read as a signed number: up to (p − 1) ÷ 2 as itself, a larger one as itself minus p, also where it is p or more.
pub fn signed(x: u64) -> i64
    ensures { result ≡ signed_in modulus x }
{
    if x <= HALF {
        return x as i64;
    }
    if x < P {
        return -1 - ((P - 1 - x) as i64);
    }
    (x - P) as i64
}

// A signed number of 16 bits as a group number.
// It casts: by `i64::from` two goals stayed open.
pub fn from_signed(w: i16) -> u64
    ensures { (result ≡ embed modulus w) × (result < modulus) }
{
    let wide = w as i64;
    if wide < 0 {
        return P - ((0 - wide) as u64);
    }
    wide as u64
}
