// The rule by which a prefix is kept.
#![tactic(auto)]

ghost use Rattle.std.specs.Prelude.{◌≡◌, pos};
ghost use Rattle.std.specs.Int.Signed.{le_z};
ghost use Rattle.kept.specs.Kept.{reaches_by};

use signed::signed;

// The threshold t of a search, and whether its totals are read as signed numbers.
#[derive(Clone, Copy)]
pub struct Rule {
    pub t: u64,
    pub weighted: bool,
}

// Whether a signed number is at least t.
fn at_least(z: i64, t: u64) -> bool
    ensures { result ≡ le_z (pos t) z }
{
    0 <= z && t <= z.unsigned_abs()
}

// Whether a prefix with this total is kept.
pub fn reaches(rule: Rule, total: u64) -> bool
    ensures { result ≡ reaches_by rule total }
{
    if rule.weighted {
        return at_least(signed(total), rule.t);
    }
    rule.t <= total
}
