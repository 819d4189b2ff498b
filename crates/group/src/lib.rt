// Numbers modulo p = 2^64 − 2^32 + 1, on 64-bit words. Every function takes any word for its remainder.
#![tactic(auto)]

ghost use Rattle.std.specs.Prelude.{◌≡◌, ◌%◌, ◌<◌};
ghost use Rattle.group.specs.Modular.{p, field};

pub const P: u64 = 18446744069414584321;

// The remainder of a word by p.
// That a result is below p stays in the clauses, here and below: C and the servers lend any word, so results are words, too.
pub fn reduce(x: u64) -> u64
    ensures { (result ≡ x % p) × (result < p) }
{
    if x < P { x } else { x - P }
}

// The sum of two numbers below p.
fn add_below(x: u64, y: u64) -> u64
    requires { (x < p) × (y < p) }
    ensures { (result ≡ field.add x y) × (result < p) }
{
    let room = P - y;
    if x < room { x + y } else { x - room }
}

// The sum of two words modulo p.
pub fn add(x: u64, y: u64) -> u64
    ensures { (result ≡ field.add x y) × (result < p) }
{
    add_below(reduce(x), reduce(y))
}

// The negative of a word modulo p.
pub fn negate(x: u64) -> u64
    ensures { (result ≡ field.neg x) × (result < p) }
{
    let y = reduce(x);
    if y == 0 { 0 } else { P - y }
}
