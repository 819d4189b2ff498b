// One bit more than a packed string has, written at a place. What does not fit is not written at all.
// The place stays beside the bytes: the promises hold for every place, also one behind the end, from which no slice can be taken.
ghost use Rattle.std.specs.Prelude.{◌≡◌, ◌+◌, ◌*◌, ◌<◌, length, take};
ghost use Rattle.places.specs.Places.{put_at};
ghost use Rattle.bits.specs.Strings.{◌▹◌};
ghost use Rattle.bits.specs.Packing.{value, digits, bits_of, pack, unpack};

use places::{copy, within};

// The byte that begins with the first `rest` bits of x and then has `bit`; its other bits are zero.
fn last_byte(x: u8, rest: usize, bit: bool) -> u8
    requires { rest < 8 }
    ensures { result ≡ value 8 (take rest (digits 8 x) ▹ bit) }
{
    let unit = 256 >> rest;
    let y = u64::from(x);
    let kept = y - y % unit;
    if bit {
        return (kept + unit / 2) as u8;
    }
    kept as u8
}

// The child of the first 8 * whole + rest bits of `prefix`, which end in its byte `whole`, packed, from place `at` on.
fn put_child(prefix: &[u8], whole: usize, rest: usize, bit: bool, out: &mut [u8], at: usize)
    requires { (rest < 8) × (whole < length prefix.now) }
    ensures { out.new ≡ put_at out.old at (pack (unpack (8 * whole + rest) prefix.now ▹ bit)) }
{
    let end = whole + 1;
    if !within(out.len(), at, end) {
        return;
    }
    let last = last_byte(prefix[whole], rest, bit);
    copy(&prefix[..end], out, at);
    out[at + whole] = last;
}

// The child of all bits of `prefix`, packed, from place `at` on.
// It stays beside `put_child`: there the last byte is one of the prefix, and here it is none.
fn put_child_of_all(prefix: &[u8], bit: bool, out: &mut [u8], at: usize)
    ensures { out.new ≡ put_at out.old at (pack (bits_of prefix.now ▹ bit)) }
{
    let whole = prefix.len();
    if !within(out.len(), at, whole + 1) {
        return;
    }
    let last = last_byte(0, 0, bit);
    copy(prefix, out, at);
    out[at + whole] = last;
}

// Writes the child, on side `bit`, of the prefix that the first len bits of `prefix` are, packed, from place `at` on.
pub fn write_child(prefix: &[u8], len: usize, bit: bool, out: &mut [u8], at: usize)
    ensures { out.new ≡ put_at out.old at (pack (unpack len prefix.now ▹ bit)) }
{
    if prefix.len() <= len / 8 {
        put_child_of_all(prefix, bit, out, at);
        return;
    }
    put_child(prefix, len / 8, len % 8, bit, out, at);
}
