// The page of a string: its public share, level by level, and both servers' shares at its prefixes and beside them. Each function gives back the
// place behind what it wrote.
// The place stays beside the space, as in the writers of `fields`, which are handed it.
ghost use Rattle.std.specs.Prelude.{◌≡◌, true, false, ◌+◌, ◌≤◌, ◌<◌, length};
ghost use Rattle.places.specs.Places.{put_at, overlay};
ghost use Rattle.point.specs.PublicShare.{joined, public_share_length};
ghost use Rattle.key_answering.specs.KeyPage.{page_space};
ghost use Rattle.key_answering.specs.KeyParts.{levels_of, side_of, pair_of, page_of};

use crate::key::Key;
use crate::lines::{write_control, write_level, write_shares};
use bits::{bit_at, packed_length, write_child};
use nodes::level_start;
use walk::ServerKey;

// The word `prefix`.
const PREFIX: [u8; 6] = *b"prefix";

// The word `beside`.
const BESIDE: [u8; 6] = *b"beside";

impl Key<'_> {
    // Writes the lines of all n levels of the public share.
    // It is a twin of `write_path`: a function that takes the lines of a turn as a closure over `out` would be longer than both loops.
    fn write_levels(self, out: &mut [u8], at: usize) -> usize
        requires { at + length (levels_of self) ≤ length out.old }
        ensures value { result ≡ at + length (levels_of self.entry) }
        ensures out_after { out.new ≡ put_at out.old at (levels_of self.entry) }
    {
        let mut here = at;
        for k in 0..self.n {
            here = write_level(self.share, self.n, k, out, here);
        }
        here
    }

    // Writes the line of the prefix that has the first k bits of the string and then `bit`.
    fn write_side(self, word: &[u8], k: u16, bit: bool, out: &mut [u8], at: usize) -> usize
        requires level { k < self.n }
        requires room { at + length (side_of self word.now k bit) ≤ length out.old }
        ensures value { result ≡ at + length (side_of self.entry word.now k bit) }
        ensures out_after { out.new ≡ put_at out.old at (side_of self.entry word.now k bit) }
    {
        let length = k + 1;
        let mut child = [0u8; 4];
        write_child(self.string, k as usize, bit, &mut child, 0);
        let end = packed_length(length as usize);
        let prefix = &child[..end];
        let server0 = ServerKey {
            expander: self.e,
            n: self.n,
            public_share: self.share,
            seed: self.seed0,
            server: false,
        };
        let server1 = ServerKey {
            seed: self.seed1,
            server: true,
            ..server0
        };
        let (zero, _) = server0.shares_at(prefix, prefix, length);
        let (one, _) = server1.shares_at(prefix, prefix, length);
        write_shares(word, prefix, length as usize, zero, one, out, at)
    }

    // Writes the lines of the prefix that ends with bit k of the string, and of the one beside it.
    fn write_pair(self, k: u16, out: &mut [u8], at: usize) -> usize
        requires level { k < self.n }
        requires room { at + length (pair_of self k) ≤ length out.old }
        ensures value { result ≡ at + length (pair_of self.entry k) }
        ensures out_after { out.new ≡ put_at out.old at (pair_of self.entry k) }
    {
        let own = bit_at(self.string, k as usize);
        let here = self.write_side(&PREFIX, k, own, out, at);
        self.write_side(&BESIDE, k, !own, out, here)
    }

    // Writes these lines for every bit of the string.
    fn write_path(self, out: &mut [u8], at: usize) -> usize
        requires room { at + length (joined self.n (pair_of self)) ≤ length out.old }
        ensures value { result ≡ at + length (joined self.entry.n (pair_of self.entry)) }
        ensures out_after { out.new ≡ put_at out.old at (joined self.entry.n (pair_of self.entry)) }
    {
        let mut here = at;
        for k in 0..self.n {
            here = self.write_pair(k, out, here);
        }
        here
    }

    // Writes the page of the key into the beginning of `out`.
    pub(crate) fn write_page(self, out: &mut [u8]) -> usize
        requires whole { length self.share.now ≡ public_share_length self.n }
        requires room { page_space ≤ length out.old }
        ensures value { result ≡ length (page_of self.entry) }
        ensures out_after { out.new ≡ overlay (page_of self.entry) out.old }
    {
        let control = level_start(self.n, 0);
        let levels = write_control(&self.share[..control], out, 0);
        let path = self.write_levels(out, levels);
        self.write_path(out, path)
    }
}
