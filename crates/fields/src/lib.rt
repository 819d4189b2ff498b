// The fields of a line, each with the one character behind it. A field that has no room is not written at all, and the place itself is given back.
// The place stays beside the space in all of them: the promises hold for every place, also one behind the end, from which no slice can be taken.
#![tactic(auto)]

ghost use Rattle.std.specs.Prelude.{◌≡◌, [], ◌∷◌, ◌++◌, ◌+◌, ◌≤◌, ◌<◌, length};
ghost use Rattle.places.specs.Places.{put_at};
ghost use Rattle.exam_text.specs.Characters.{glyph, binary, hexadecimal, decimal};
ghost use Rattle.fields.specs.Field.{packed_line, place_behind};

use crate::decimal::{put, write_decimal};
use crate::strings::write_bits;
use places::{copy, within};

mod decimal;
mod strings;

pub use decimal::decimal_length;
pub use strings::has_room;

// The character of a hexadecimal digit.
fn hex_digit(x: u8) -> u8
    requires { x < 16 }
    ensures { result ≡ glyph x }
{
    match x {
        0..=9 => b'0' + x,
        _ => b'a' + (x - 10),
    }
}

// Writes bytes in hexadecimal, two characters each.
fn put_hex(bytes: &[u8], out: &mut [u8], at: usize) -> usize
    requires { at + length (hexadecimal bytes.now) ≤ length out.old }
    ensures value { result ≡ at + length (hexadecimal bytes.now) }
    ensures out_after { out.new ≡ put_at out.old at (hexadecimal bytes.now) }
{
    let mut here = at;
    for byte in bytes {
        here = put(out, here, hex_digit(*byte / 16));
        here = put(out, here, hex_digit(*byte % 16));
    }
    here
}

// The four writers share a test and a last line: one function that takes the writing as a closure over `out` would be longer than what they share.

// Writes a word and the character behind it at a place, where they have room, and gives back the place behind them.
pub fn write_word(word: &[u8], then: u8, out: &mut [u8], at: usize) -> usize
    ensures place { result ≡ place_behind out.old at (word.now ++ (then ∷ [])) }
    ensures space { out.new ≡ put_at out.old at (word.now ++ (then ∷ [])) }
{
    let size = word.len();
    if !within(out.len(), at, size + 1) {
        return at;
    }
    copy(word, out, at);
    put(out, at + size, then)
}

// The same of a number in decimal.
pub fn write_number(x: u64, then: u8, out: &mut [u8], at: usize) -> usize
    ensures place { result ≡ place_behind out.old at (decimal x ++ (then ∷ [])) }
    ensures space { out.new ≡ put_at out.old at (decimal x ++ (then ∷ [])) }
{
    if !within(out.len(), at, decimal_length(x) + 1) {
        return at;
    }
    let here = write_decimal(out, at, x);
    put(out, here, then)
}

// The same of bytes in hexadecimal.
pub fn write_hex(bytes: &[u8], then: u8, out: &mut [u8], at: usize) -> usize
    ensures place { result ≡ place_behind out.old at (hexadecimal bytes.now ++ (then ∷ [])) }
    ensures space { out.new ≡ put_at out.old at (hexadecimal bytes.now ++ (then ∷ [])) }
{
    if !within(out.len(), at, 2 * bytes.len() + 1) {
        return at;
    }
    let here = put_hex(bytes, out, at);
    put(out, here, then)
}

// The same of k bits, which are packed in as many bytes as they take.
pub fn write_string(packed: &[u8], k: usize, then: u8, out: &mut [u8], at: usize) -> usize
    ensures place { result ≡ place_behind out.old at (packed_line (λ s. binary s ++ (then ∷ [])) k packed.now) }
    ensures space { out.new ≡ put_at out.old at (packed_line (λ s. binary s ++ (then ∷ [])) k packed.now) }
{
    if !has_room(packed.len(), k, 1, out.len(), at) {
        return at;
    }
    let here = write_bits(packed, k, out, at);
    put(out, here, then)
}
