// Numbers as bytes at a place of a slice. What does not lie within the slice is read as zeros and not written at all.
// Each width is one line over `read` or `copy`: the library converts by width, and one function for all would need a trait for that line.
// The place stays beside the bytes: the promises hold for every place, also one behind the end, from which no slice can be taken.
#![tactic(auto)]

ghost use Rattle.std.specs.Prelude.{◌≡◌, ◌<◌};
ghost use Rattle.places.specs.Places.{window, put_at};
ghost use Rattle.numbers.specs.Numbers.{little, from_little, big, from_big};

use places::{copy, read};

// The number in the 8 bytes from place `at` on, least significant first.
#[tactic(auto, using(crate::proofs::Library::le_8_window))]
pub fn read_le8(s: &[u8], at: usize) -> u64
    ensures { result ≡ from_little (window 8 at s.now) }
{
    u64::from_le_bytes(read(s, at))
}

// The number in the 2 bytes from place `at` on, most significant first.
#[tactic(auto, using(crate::proofs::Library::be_2_window))]
pub fn read_be2(s: &[u8], at: usize) -> u64
    ensures { (result ≡ from_big (window 2 at s.now)) × (result < 65536) }
{
    u64::from(u16::from_be_bytes(read(s, at)))
}

// The number in the 4 bytes from place `at` on, most significant first.
#[tactic(auto, using(crate::proofs::Library::be_4_window))]
pub fn read_be4(s: &[u8], at: usize) -> u64
    ensures { (result ≡ from_big (window 4 at s.now)) × (result < 4294967296) }
{
    u64::from(u32::from_be_bytes(read(s, at)))
}

// The number in the 8 bytes from place `at` on, most significant first.
#[tactic(auto, using(crate::proofs::Library::be_8_window))]
pub fn read_be8(s: &[u8], at: usize) -> u64
    ensures { result ≡ from_big (window 8 at s.now) }
{
    u64::from_be_bytes(read(s, at))
}

// x into the 8 places from `at` on, least significant byte first.
#[tactic(auto, using(crate::proofs::Library::le_8_bytes))]
pub fn write_le8(out: &mut [u8], at: usize, x: u64)
    ensures { out.new ≡ put_at out.old at (little 8 x) }
{
    copy(&x.to_le_bytes(), out, at);
}

// The lowest 2 bytes of x into the places from `at` on, most significant first.
#[tactic(auto, using(crate::proofs::Library::be_2_bytes))]
pub fn write_be2(out: &mut [u8], at: usize, x: u64)
    ensures { out.new ≡ put_at out.old at (big 2 x) }
{
    copy(&((x % 65536) as u16).to_be_bytes(), out, at);
}

// The lowest 4 bytes of x into the places from `at` on, most significant first.
#[tactic(auto, using(crate::proofs::Library::be_4_bytes))]
pub fn write_be4(out: &mut [u8], at: usize, x: u64)
    ensures { out.new ≡ put_at out.old at (big 4 x) }
{
    copy(&((x % 4294967296) as u32).to_be_bytes(), out, at);
}

// x into the 8 places from `at` on, most significant byte first.
#[tactic(auto, using(crate::proofs::Library::be_8_bytes))]
pub fn write_be8(out: &mut [u8], at: usize, x: u64)
    ensures { out.new ≡ put_at out.old at (big 8 x) }
{
    copy(&x.to_be_bytes(), out, at);
}
