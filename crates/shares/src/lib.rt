// Two shares as numbers: whether they match, whether their numbers are below p, and their sums; and the call `add_shares`.
#![tactic(auto)]

ghost use Rattle.std.specs.Prelude.{◌≡◌, ◌&&◌, ◌≤◌, length};
ghost use Rattle.numbers.specs.Numbers.{from_little};
ghost use Rattle.places.specs.Places.{window, overlay};
ghost use Rattle.calls.specs.Causes.{number_due};
ghost use Rattle.calls.specs.Refusals.{number_in};
ghost use Rattle.calls.specs.Outcome.{answered};
ghost use Rattle.group.specs.Modular.{field};
ghost use Rattle.shares.specs.ShareNumbers.{numbers, unmatched, all_below};
ghost use Rattle.shares.specs.Add.{add_causes, add_bytes, add_exit};

use calls::Refusal;
use numbers::{read_le8, write_le8};

// Whether the lengths of two shares differ or are no multiple of 8.
// The two shares stay beside each other, here and below: C lends them one by one.
pub fn unmatched(share0: &[u8], share1: &[u8]) -> bool
    ensures { result ≡ unmatched share0.now share1.now }
{
    share0.len() != share1.len() || share0.len() % 8 != 0
}

// Whether every number of a share is below p.
fn all_below(share: &[u8]) -> bool
    ensures { result ≡ all_below (numbers share.now) }
{
    for i in 0..share.len() / 8 {
        if group::P <= read_le8(share, 8 * i) {
            return false;
        }
    }
    true
}

// Whether every number of two shares is below p.
pub fn both_below(share0: &[u8], share1: &[u8]) -> bool
    ensures { result ≡ (all_below (numbers share0.now) && all_below (numbers share1.now)) }
{
    all_below(share0) && all_below(share1)
}

// The sum in the group of the numbers of two shares at place `at`.
pub fn sum_at(share0: &[u8], share1: &[u8], at: usize) -> u64
    ensures { result ≡ field.add (from_little (window 8 at share0.now)) (from_little (window 8 at share1.now)) }
{
    group::add(read_le8(share0, at), read_le8(share1, at))
}

// The first cause that applies.
fn check(share0: &[u8], share1: &[u8], room: usize) -> Result<(), Refusal>
    ensures { number_in result ≡ number_due (add_causes share0.now share1.now room) }
{
    if unmatched(share0, share1) {
        return Err(Refusal::Lengths);
    }
    if !both_below(share0, share1) {
        return Err(Refusal::PayloadTooLarge);
    }
    if room < share0.len() {
        return Err(Refusal::NoSpace);
    }
    Ok(())
}

// The sums at all places, in order, in the place of the beginning of `out`.
fn write_sums(share0: &[u8], share1: &[u8], out: &mut [u8])
    requires { (length share0.now ≡ length share1.now) × (length share0.now ≤ length out.old) }
    ensures { out.new ≡ overlay (add_bytes share0.now share1.now) out.old }
{
    for i in 0..share0.len() / 8 {
        write_le8(out, 8 * i, sum_at(share0, share1, 8 * i));
    }
}

// Writes for each place the sum of the two shares' numbers; refuses with 4, 6 or 11.
pub fn add_shares(share0: &[u8], share1: &[u8], out: &mut [u8]) -> Result<u64, Refusal>
    ensures { answered result out.new ≡ add_exit share0.now share1.now out.old }
{
    check(share0, share1, out.len())?;
    write_sums(share0, share1, out);
    Ok(share0.len() as u64)
}
