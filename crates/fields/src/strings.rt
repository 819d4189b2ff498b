// Packed bit strings as characters.
// The place stays beside the space, as in the published writers of this crate, which are handed it.
ghost use Rattle.std.specs.Prelude.{◌≡◌, ◌&&◌, ◌+◌, ◌≤◌, length, leb, eqb};
ghost use Rattle.places.specs.Lists.{digit};
ghost use Rattle.places.specs.Places.{put_at};
ghost use Rattle.bits.specs.Packing.{packed_length, unpack};
ghost use Rattle.exam_text.specs.Characters.{glyph, binary};

use crate::decimal::put;
use bits::bit_at;

// The character of a bit.
fn bit_digit(bit: bool) -> u8
    ensures { result ≡ glyph (digit bit) }
{
    if bit { b'1' } else { b'0' }
}

// Writes the k bits that are packed in `packed`, a character each.
pub(crate) fn write_bits(packed: &[u8], k: usize, out: &mut [u8], at: usize) -> usize
    requires { (length packed.now ≡ packed_length k) × (at + length (binary (unpack k packed.now)) ≤ length out.old) }
    ensures value { result ≡ at + length (binary (unpack k packed.now)) }
    ensures out_after { out.new ≡ put_at out.old at (binary (unpack k packed.now)) }
{
    let mut here = at;
    for i in 0..k {
        here = put(out, here, bit_digit(bit_at(packed, i)));
    }
    here
}

// Whether k bits are packed in so many bytes, and a line of them and of `rest` other characters has room from place `at` on.
pub fn has_room(bytes: usize, k: usize, rest: usize, room: usize, at: usize) -> bool
    ensures { result ≡ (eqb bytes (packed_length k) && leb (at + (k + rest)) room) }
{
    if bytes != bits::packed_length(k) {
        return false;
    }
    if room < k {
        return false;
    }
    let left = room - k;
    if left < rest {
        return false;
    }
    let last = left - rest;
    at <= last
}
