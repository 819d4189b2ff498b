// Expanders: block j of a seed of 16 bytes, and the XOR of two seeds.
#![tactic(auto)]

ghost use Rattle.std.specs.Prelude.{◌≡◌, ◌^◌, ◌++◌, MatchResult, Some, None};
ghost use Rattle.numbers.specs.Numbers.{big, little};
ghost use Rattle.expander.specs.Expander.{block_of, classroom_block, is_expander, choice_of, xor_bytes};

use numbers::{read_le8, write_be8, write_le8};
use std::error::Error;
use std::fmt;
use std::num::wrapping_add_u64;

// Expander 1 is AES-128; expander 2, for the classroom, hides nothing.
#[derive(Clone, Copy, Debug, PartialEq, Eq)]
pub enum Expander {
    Aes,
    Classroom,
}

// A number that names no expander.
#[derive(Clone, Copy, Debug, PartialEq, Eq)]
pub struct UnknownExpander;

impl TryFrom<u64> for Expander {
    type Error = UnknownExpander;

    ghost try_from_gives = { λ number r. MatchResult r (λ e. choice_of number ≡ Some e) (λ _. choice_of number ≡ None) };

    fn try_from(number: u64) -> Result<Expander, UnknownExpander> {
        match number {
            1 => Ok(Expander::Aes),
            2 => Ok(Expander::Classroom),
            _ => Err(UnknownExpander),
        }
    }
}

impl fmt::Display for UnknownExpander {
    fn fmt<W: fmt::Write>(&self, f: &mut fmt::Formatter<W>) -> fmt::Result {
        write!(f, "no such expander")
    }
}

impl Error for UnknownExpander {}

// Whether a number names an expander.
// It lists the numbers again: it is asked where no expander is wanted.
pub fn is_expander(number: u64) -> bool
    ensures { result ≡ is_expander number }
{
    number == 1 || number == 2
}

// j as a 16-byte big-endian number.
fn counter(j: u64) -> [u8; 16]
    ensures { result ≡ big 16 j }
{
    let mut block = [0u8; 16];
    write_be8(&mut block, 8, j);
    block
}

// Two words, least significant byte first.
fn join(first: u64, second: u64) -> [u8; 16]
    ensures { result ≡ little 8 first ++ little 8 second }
{
    let mut block = [0u8; 16];
    write_le8(&mut block, 0, first);
    write_le8(&mut block, 8, second);
    block
}

// Block j of expander 2.
fn classroom(seed: [u8; 16], j: u64) -> [u8; 16]
    ensures { result ≡ classroom_block seed j }
{
    let a = read_le8(&seed, 0);
    let b = read_le8(&seed, 8);
    let first = wrapping_add_u64(wrapping_add_u64(a, j), 1);
    let second = wrapping_add_u64(b, first);
    join(first, second)
}

// Block j of a seed.
pub fn block(e: Expander, seed: [u8; 16], j: u64) -> [u8; 16]
    ensures { result ≡ block_of e seed j }
{
    match e {
        Expander::Aes => aes::encrypt(seed, counter(j)),
        Expander::Classroom => classroom(seed, j),
    }
}

// Blocks i and j of a seed.
pub fn two_blocks(e: Expander, seed: [u8; 16], i: u64, j: u64) -> ([u8; 16], [u8; 16])
    ensures { (result.0 ≡ block_of e seed i) × (result.1 ≡ block_of e seed j) }
{
    match e {
        Expander::Aes => aes::encrypt_two(seed, counter(i), counter(j)),
        Expander::Classroom => (classroom(seed, i), classroom(seed, j)),
    }
}

// The XOR of two seeds.
pub fn xor(a: [u8; 16], b: [u8; 16]) -> [u8; 16]
    ensures { result ≡ xor_bytes a b }
{
    [
        a[0] ^ b[0],
        a[1] ^ b[1],
        a[2] ^ b[2],
        a[3] ^ b[3],
        a[4] ^ b[4],
        a[5] ^ b[5],
        a[6] ^ b[6],
        a[7] ^ b[7],
        a[8] ^ b[8],
        a[9] ^ b[9],
        a[10] ^ b[10],
        a[11] ^ b[11],
        a[12] ^ b[12],
        a[13] ^ b[13],
        a[14] ^ b[14],
        a[15] ^ b[15],
    ]
}
