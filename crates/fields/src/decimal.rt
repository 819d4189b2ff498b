// Single characters, and numbers in decimal.
// The place stays beside the space, as in the published writers of this crate, which are handed it.
ghost use Rattle.std.specs.Prelude.{◌≡◌, [], ◌∷◌, ◌+◌, ◌≤◌, ◌<◌, length};
ghost use Rattle.places.specs.Places.{put_at};
ghost use Rattle.exam_text.specs.Characters.{decimal};

// The base in which numbers are printed.
const BASE: u64 = 10;

// Writes one character at a place and gives back the place behind it.
pub(crate) fn put(out: &mut [u8], at: usize, character: u8) -> usize
    requires { at < length out.old }
    ensures value { result ≡ at + 1 }
    ensures out_after { out.new ≡ put_at out.old at (character ∷ []) }
{
    out[at] = character;
    at + 1
}

// The character of a decimal digit.
// It adds by hand: no conversion of the library makes a character's byte of a digit.
fn digit(x: u64) -> u8
    requires { x < 10 }
    ensures { result ≡ 48 + x }
{
    b'0' + x as u8
}

// How many digits a number has in decimal.
pub fn decimal_length(x: u64) -> usize
    ensures { (result ≡ length (decimal x)) × (result ≤ 20) }
{
    if x < BASE {
        return 1;
    }
    decimal_length(x / BASE) + 1
}

// Writes a number in decimal at a place and gives back the place behind it.
pub(crate) fn write_decimal(out: &mut [u8], at: usize, x: u64) -> usize
    requires { at + length (decimal x) ≤ length out.old }
    ensures value { result ≡ at + length (decimal x) }
    ensures out_after { out.new ≡ put_at out.old at (decimal x) }
{
    if x < BASE {
        return put(out, at, digit(x));
    }
    let last = write_decimal(out, at, x / BASE);
    put(out, last, digit(x % BASE))
}
