// A reader that walks one lent public share level by level, without copying it.
ghost use Rattle.std.specs.Prelude.{◌≡◌, ◌+◌, ◌<◌};
ghost use Rattle.point.specs.PublicShare.{read_correction};
ghost use Rattle.nodes.specs.NodeLayout.{correction_of};

use nodes::{Correction, level_start};

// A lent public share, its number of levels, and the level that is read next.
// It stays a struct that is handed on: document 01 names that form for this place.
#[derive(Clone, Copy)]
pub(crate) struct ShareReader<'a> {
    share: &'a [u8],
    levels: u16,
    pub(crate) next: u16,
}

// The correction word of level k, of n, in a public share.
pub fn read_correction(bytes: &[u8], n: u16, k: u16) -> Correction
    ensures { correction_of result ≡ read_correction n bytes.now k }
{
    let level = k as usize;
    let start = level_start(n, k);
    let control = places::byte_at(bytes, level / 4);
    let place = 2 * (level % 4);
    Correction {
        seed: places::read16(bytes, start),
        left: (control >> place) % 2 == 1,
        right: (control >> (place + 1)) % 2 == 1,
        payload: numbers::read_le8(bytes, start + 16),
    }
}

impl<'a> ShareReader<'a> {
    // A reader of a public share of `levels` levels, at level `next`.
    pub(crate) fn at_level(share: &'a [u8], levels: u16, next: u16) -> ShareReader<'a>
        ensures { (result.share ≡ share.entry) × (result.levels ≡ levels) × (result.next ≡ next) }
    {
        ShareReader {
            share,
            levels,
            next,
        }
    }

    // The correction word of the next level.
    pub(crate) fn correction(self) -> Correction
        ensures { correction_of result ≡ read_correction self.entry.levels self.entry.share.now self.entry.next }
    {
        read_correction(self.share, self.levels, self.next)
    }

    // The reader handed on by one level.
    pub(crate) fn advanced(self) -> ShareReader<'a>
        requires { self.next < 65535 }
        ensures { (result.share ≡ self.entry.share) × (result.levels ≡ self.entry.levels) × (result.next ≡ self.entry.next + 1) }
    {
        ShareReader {
            share: self.share,
            levels: self.levels,
            next: self.next + 1,
        }
    }
}

// The correction word of level k, of n, and the level after it, by a reader made at level k.
// The level behind it stays beside the word: two must-fail edits are of it.
pub(crate) fn read_level(bytes: &[u8], n: u16, k: u16) -> (Correction, u16)
    requires { k < 65535 }
    ensures { (correction_of result.0 ≡ read_correction n bytes.now k) × (result.1 ≡ k + 1) }
{
    let reader = ShareReader::at_level(bytes, n, k);
    (reader.correction(), reader.advanced().next)
}
