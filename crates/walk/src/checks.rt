// The tests of causes 6 and 7 on one public share.
ghost use Rattle.std.specs.Prelude.{◌≡◌};
ghost use Rattle.group.specs.Modular.{p};
ghost use Rattle.point.specs.PublicShare.{payloads_below, spare_bits_zero};

use crate::reader::ShareReader;

// Whether the payload corrections of all n levels are below p: one reader is handed on from level to level.
pub fn payloads_below(n: u16, share: &[u8]) -> bool
    ensures { result ≡ payloads_below p n share.now }
{
    let mut reader = ShareReader::at_level(share, n, 0);
    let mut below = true;
    for _ in 0..n {
        let word = reader.correction();
        below &= word.payload < group::P;
        reader = reader.advanced();
    }
    below
}

// Whether the spare bits of the last control byte of n levels are zero.
pub fn spare_bits_zero(n: u16, share: &[u8]) -> bool
    ensures { result ≡ spare_bits_zero n share.now }
{
    let m = n as usize;
    m % 4 == 0 || places::byte_at(share, m / 4) >> (2 * (m % 4)) == 0
}
