// The seeds and the strings of lines.
ghost use Rattle.std.specs.Prelude.{◌≡◌, true, false, ◌+◌, ◌*◌, ◌≤◌, length, get_or, drop};
ghost use Rattle.places.specs.Lists.{digit};
ghost use Rattle.bits.specs.Packing.{pack_in, value};
ghost use Rattle.exam_text.specs.Reader.{is_hex, hex_value, are_hex, bytes_read, bits_read};

// The value of a hexadecimal digit.
fn hex_value(c: u8) -> u8
    requires { is_hex c ≡ true }
    ensures { (result ≡ hex_value c) × (result ≤ 15) }
{
    if c <= b'9' { c - b'0' } else { c - b'a' + 10 }
}

// The seed that 32 hexadecimal digits are.
pub(crate) fn read_seed(digits: &[u8]) -> [u8; 16]
    requires { (length digits.now ≡ 32) × (are_hex digits.now ≡ true) }
    ensures { result ≡ bytes_read digits.now }
{
    let mut seed = [0u8; 16];
    for i in 0..16 {
        seed[i] = 16 * hex_value(digits[2 * i]) + hex_value(digits[2 * i + 1]);
    }
    seed
}

// Bit k of a string of digits; 0 past them.
fn bit_read(digits: &[u8], k: usize) -> u8
    ensures { (result ≡ digit (get_or (bits_read digits.now) k false)) × (result ≤ 1) }
{
    u8::from(digits.get(k) == Some(&b'1'))
}

// The byte of eight bits from bit `from` on of a string of digits; those past them are 0.
fn byte_read(digits: &[u8], from: usize) -> u8
    requires { from ≤ 24 }
    ensures { result ≡ value 8 (drop from (bits_read digits.now)) }
{
    let mut x = 0;
    for k in from..from + 8 {
        x = 2 * x + bit_read(digits, k);
    }
    x
}

// The string of the digits, packed into four bytes.
pub(crate) fn read_string(digits: &[u8]) -> [u8; 4]
    ensures { result ≡ pack_in 4 (bits_read digits.now) }
{
    [
        byte_read(digits, 0),
        byte_read(digits, 8),
        byte_read(digits, 16),
        byte_read(digits, 24),
    ]
}
