// A server's shares at two prefixes, from its root seed: where these have one parent, the walk to it is made once.
ghost use Rattle.std.specs.Prelude.{◌≡◌, true, false};
ghost use Rattle.bits.specs.Packing.{bits_of};
ghost use Rattle.point.specs.Instance.{scheme};
ghost use Rattle.point.specs.Evaluation.{bit_of, node, share};
ghost use Rattle.point.specs.PublicShare.{read_correction};
ghost use Rattle.point.proofs.Local.{Below};
ghost use Rattle.nodes.specs.NodeLayout.{node_of};

use crate::reader::read_level;
use crate::steps::{descend, share_below};
use expander::Expander;
use nodes::Node;

// What a server needs for its shares of one report: the expander, the number n of levels, which server it is, its root seed, and the public share.
#[derive(Clone, Copy)]
pub struct ServerKey<'a> {
    pub expander: Expander,
    pub n: u16,
    pub server: bool,
    pub seed: [u8; 16],
    pub public_share: &'a [u8],
}

// Whether the first k bits of two packed prefixes agree.
// No equality of the library: bits are not bytes, and what is past the end counts as zeros.
fn same_bits(first: &[u8], second: &[u8], k: u16) -> bool
    ensures below { result ≡ true → Below k (bit_of (bits_of first.now)) (bit_of (bits_of second.now)) }
    ensures fact { result ≡ false → Below k (bit_of (bits_of first.now)) (bit_of (bits_of second.now)) → ⊥ }
{
    (0..k as usize)
        .rev()
        .all(|i| bits::bit_at(first, i) == bits::bit_at(second, i))
}

impl ServerKey<'_> {
    // The node at the first k bits of a packed prefix.
    // It stays a recursion: document 01 names that form for this place.
    fn node_at(&self, prefix: &[u8], k: u16) -> Node
        ensures { node_of result ≡ node (scheme self.now.expander) (read_correction self.now.n self.now.public_share.now) self.now.seed self.now.server (bit_of (bits_of prefix.now)) k }
    {
        if k == 0 {
            return Node {
                seed: self.seed,
                bit: self.server,
            };
        }
        let up = k - 1;
        let above = self.node_at(prefix, up);
        let (word, _) = read_level(self.public_share, self.n, up);
        descend(
            self.expander,
            word,
            bits::bit_at(prefix, up as usize),
            above,
        )
    }

    // The node at the first k bits of a second packed prefix: the first prefix's node m, where these bits agree.
    fn second_node(&self, first: &[u8], second: &[u8], k: u16, m: Node) -> Node
        requires { node_of m ≡ node (scheme self.now.expander) (read_correction self.now.n self.now.public_share.now) self.now.seed self.now.server (bit_of (bits_of first.now)) k }
        ensures { node_of result ≡ node (scheme self.now.expander) (read_correction self.now.n self.now.public_share.now) self.now.seed self.now.server (bit_of (bits_of second.now)) k }
    {
        if same_bits(first, second, k) {
            return m;
        }
        self.node_at(second, k)
    }

    // The server's shares at the first k bits of two packed prefixes; 0 at the empty prefix.
    pub fn shares_at(self, first: &[u8], second: &[u8], k: u16) -> (u64, u64)
        ensures first_value { result.0 ≡ share (scheme self.entry.expander) (read_correction self.entry.n self.entry.public_share.now) self.entry.seed self.entry.server (bit_of (bits_of first.now)) k }
        ensures second_value { result.1 ≡ share (scheme self.entry.expander) (read_correction self.entry.n self.entry.public_share.now) self.entry.seed self.entry.server (bit_of (bits_of second.now)) k }
    {
        if k == 0 {
            return (0, 0);
        }
        let up = k - 1;
        let m = self.node_at(first, up);
        let o = self.second_node(first, second, up, m);
        let (word, _) = read_level(self.public_share, self.n, up);
        let x = bits::bit_at(first, up as usize);
        let y = bits::bit_at(second, up as usize);
        (
            share_below(self.expander, self.server, word, x, m),
            share_below(self.expander, self.server, word, y, o),
        )
    }
}
