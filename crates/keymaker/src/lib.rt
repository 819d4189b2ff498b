// The key maker: the public share of a string with its weight, from its two root seeds.
#![tactic(auto)]

mod level;

ghost use Rattle.std.specs.Prelude.{◌≡◌, not, ◌||◌, ◌+◌, ◌*◌, ◌/◌, ◌%◌, ◌^◌, ◌≤◌, ◌<◌, length, get_or, set, eqb, IfOk, Some};
ghost use Rattle.places.specs.Lists.{digit};
ghost use Rattle.places.specs.Places.{Bytes, put_at, overlay};
ghost use Rattle.bits.specs.Packing.{packed_length, unpack};
ghost use Rattle.calls.specs.Causes.{number_due};
ghost use Rattle.calls.specs.Refusals.{number_in};
ghost use Rattle.calls.specs.Outcome.{answered};
ghost use Rattle.expander.specs.Expander.{choice_of};
ghost use Rattle.point.specs.Keys.{key_correction};
ghost use Rattle.point.specs.Evaluation.{bit_of};
ghost use Rattle.point.specs.PublicShare.{level_bytes, public_share, public_share_length};
ghost use Rattle.point.specs.Instance.{scheme};
ghost use Rattle.nodes.specs.NodeLayout.{correction_of};
ghost use Rattle.keymaker.specs.Key.{key_causes, key_exit};

use crate::level::next_level;
use bits::{bit_at, packed_length, spare_zero};
use calls::Refusal;
use expander::Expander;
use nodes::{Correction, Node, level_start, public_share_length};
use numbers::write_le8;
use places::{read16, write16};
use signed::from_signed;

// The place value of the first control bit of level k within its byte.
fn place_value(k: u16) -> u64
    ensures { (result ≡ 2 ^ (2 * (k % 4))) × (0 < result) × (result ≤ 64) }
{
    1 << (2 * (k % 4))
}

// A control byte with the bits of level k put above what stands below them.
fn control_byte(old: u8, k: u16, left: bool, right: bool) -> u8
    ensures { result ≡ old % 2 ^ (2 * (k % 4)) + (digit left + 2 * digit right) * 2 ^ (2 * (k % 4)) }
{
    let w = place_value(k);
    let both = u64::from(left) + 2 * u64::from(right);
    (u64::from(old) % w + both * w) as u8
}

// The control bits of level k into their byte.
fn put_control(out: &mut [u8], k: u16, left: bool, right: bool)
    requires { k / 4 < length out.old }
    ensures { out.new ≡ set out.old (k / 4) (get_or out.old (k / 4) 0 % 2 ^ (2 * (k % 4)) +
        (digit left + 2 * digit right) * 2 ^ (2 * (k % 4))) }
{
    let j = (k / 4) as usize;
    out[j] = control_byte(out[j], k, left, right);
}

// Seed and payload correction of a level into the places from `at` on.
// The place stays beside the space, as in `write16` and `write_le8`, which are handed it.
fn put_word(out: &mut [u8], at: usize, word: Correction)
    requires { at + 24 ≤ length out.old }
    ensures { out.new ≡ put_at out.old at (level_bytes (correction_of word)) }
{
    let payload_at = at + 16;
    let seed = word.seed;
    write16(out, at, seed);
    write_le8(out, payload_at, word.payload);
}

// The public share of the string, with its weight as a group number, into the beginning of `out`.
// These are the arguments of `make_key` as they were judged, handed on once: a struct would be made and taken apart again.
fn write_key(
    e: Expander,
    n: u16,
    weight: u64,
    string: &[u8],
    seed0: [u8; 16],
    seed1: [u8; 16],
    out: &mut [u8],
)
    requires { (public_share_length n ≤ length out.old) × Bytes 16 seed0 × Bytes 16 seed1 }
    ensures { out.new ≡ overlay (public_share n (key_correction (scheme e) weight (bit_of (unpack n string.now)) seed0 seed1))
        out.old }
{
    let root0 = Node {
        seed: seed0,
        bit: false,
    };
    let root1 = Node {
        seed: seed1,
        bit: true,
    };
    let mut nodes = (root0, root1);
    for k in 0..n {
        let (word, next) = next_level(e, weight, bit_at(string, k as usize), nodes);
        put_control(out, k, word.left, word.right);
        put_word(out, level_start(n, k), word);
        nodes = next;
    }
}

// Whether the string or a seed has the wrong length.
fn wrong_lengths(n: u16, string: &[u8], seed0: &[u8], seed1: &[u8]) -> bool
    ensures { result ≡ (not (eqb (length string.now) (packed_length n)) || (not (eqb (length seed0.now) 16) || not
        (eqb (length seed1.now) 16))) }
{
    string.len() != packed_length(n as usize) || seed0.len() != 16 || seed1.len() != 16
}

// The expander that the number names, where no cause applies; else the first that does.
fn check(
    n: u64,
    expander: u64,
    string: &[u8],
    seed0: &[u8],
    seed1: &[u8],
    room: usize,
) -> Result<Expander, Refusal>
    ensures number { number_in result ≡ number_due (key_causes n expander string.now seed0.now seed1.now room) }
    ensures chosen { IfOk result (λ e. choice_of expander ≡ Some e) }
{
    if calls::length_outside(n) {
        return Err(Refusal::StringLength);
    }
    let e = Expander::try_from(expander)?;
    let levels = n as u16;
    let wrong = wrong_lengths(levels, string, seed0, seed1);
    let clear = spare_zero(string, levels as usize);
    if wrong {
        return Err(Refusal::Lengths);
    }
    if !clear {
        return Err(Refusal::SpareBits);
    }
    if room < public_share_length(levels) {
        return Err(Refusal::NoSpace);
    }
    Ok(e)
}

// Writes the public share of a string of n bits with a weight; refuses with 1, 3, 4, 7 or 11.
// C lends these one by one.
pub fn make_key(
    n: u64,
    expander: u64,
    weight: i16,
    string: &[u8],
    seed0: &[u8],
    seed1: &[u8],
    out: &mut [u8],
) -> Result<u64, Refusal>
    ensures { answered result out.new ≡ key_exit n expander weight string.now seed0.now seed1.now out.old }
{
    let e = check(n, expander, string, seed0, seed1, out.len())?;
    let levels = n as u16;
    write_key(
        e,
        levels,
        from_signed(weight),
        string,
        read16(seed0, 0),
        read16(seed1, 0),
        out,
    );
    Ok(public_share_length(levels) as u64)
}
