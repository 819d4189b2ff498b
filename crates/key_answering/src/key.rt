// A key, as its page needs it.
ghost use Rattle.std.specs.Prelude.{◌≡◌, ◌≤◌, length};
ghost use Rattle.bits.specs.Packing.{packed_length};

use expander::Expander;

// A string of n bits, its two root seeds and its public share, under an expander.
#[derive(Clone, Copy)]
pub(crate) struct Key<'a> {
    pub(crate) e: Expander,
    pub(crate) n: u16,
    pub(crate) string: &'a [u8],
    pub(crate) seed0: [u8; 16],
    pub(crate) seed1: [u8; 16],
    pub(crate) share: &'a [u8],
    ghost packed: { (n ≤ 32) × (length string.now ≡ packed_length n) },
}
