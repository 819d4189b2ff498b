// One step down from a kept node: the node there, and the server's share.
ghost use Rattle.std.specs.Prelude.{◌≡◌};
ghost use Rattle.point.specs.Instance.{scheme};
ghost use Rattle.point.specs.Evaluation.{descend, share_below};
ghost use Rattle.point.specs.PublicShare.{read_correction};
ghost use Rattle.nodes.specs.NodeLayout.{node_of};

use crate::reader::read_correction;
use crate::steps::{as_share, corrected_child, with_correction};
use expander::Expander;
use nodes::{Node, draw};

// Server b's node and share one bit x further down than the node m, by the correction word of level k, of n, in a public share.
// It takes no ServerKey: the kept node stands where that has the seed.
// It is `descend` and `share_below` in one, by two blocks from one key schedule.
pub fn step_down(
    e: Expander,
    n: u16,
    b: bool,
    bytes: &[u8],
    k: u16,
    x: bool,
    m: Node,
) -> (Node, u64)
    ensures node_value { node_of result.0 ≡ descend (scheme e) (read_correction n bytes.now k) x (node_of m) }
    ensures share_value { result.1 ≡ share_below (scheme e) b (read_correction n bytes.now k) x (node_of m) }
{
    let word = read_correction(bytes, n, k);
    let child = corrected_child(e, word, x, m);
    let (seed, payload_block) = expander::two_blocks(e, child.seed, 2, 3);
    let value = with_correction(child.bit, draw(payload_block), word.payload);
    let bit = child.bit;
    (Node { seed, bit }, as_share(b, value))
}
