// Packed bit strings in slices.
#![tactic(auto)]

mod child;

ghost use Rattle.std.specs.Prelude.{◌≡◌, false, get_or, drop};
ghost use Rattle.bits.specs.Packing.{packed_length, bits_of, is_zero, spare_zero, bytes_before};

pub use child::write_child;
use places::byte_at;

// How many bytes n bits take.
pub fn packed_length(n: usize) -> usize
    ensures { result ≡ packed_length n }
{
    n.div_ceil(8)
}

// Bit i of the bytes, first bit highest; 0 past the end.
pub fn bit_at(s: &[u8], i: usize) -> bool
    ensures { result ≡ get_or (bits_of s.now) i false }
{
    (byte_at(s, i / 8) >> (7 - i % 8)) % 2 == 1
}

// Whether all bytes from place `from` on are zero.
fn zero_from(s: &[u8], from: usize) -> bool
    ensures { result ≡ is_zero (bits_of (drop from s.now)) }
{
    s.iter().skip(from).all(|x| *x == 0)
}

// Whether the bits past the n-th are zero.
pub fn spare_zero(s: &[u8], n: usize) -> bool
    ensures { result ≡ spare_zero n s.now }
{
    let k = n / 8;
    if s.len() <= k {
        return true;
    }
    if u64::from(s[k]) % (256 >> (n % 8)) != 0 {
        return false;
    }
    zero_from(s, k + 1)
}

// Whether a stands before b: at the first place where they differ, a has the lesser byte.
// It is no order of slices: by that one a string would stand before a longer one that begins with it.
pub fn before(a: &[u8], b: &[u8]) -> bool
    ensures { result ≡ bytes_before a.now b.now }
{
    for i in 0..a.len().min(b.len()) {
        let x = a[i];
        let y = b[i];
        if x < y {
            return true;
        }
        if y < x {
            return false;
        }
    }
    false
}
