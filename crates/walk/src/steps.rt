// One step of a server's walk: from a node to the node, or the share, one bit further down.
ghost use Rattle.std.specs.Prelude.{◌≡◌, cond};
ghost use Rattle.group.specs.Modular.{field};
ghost use Rattle.point.specs.Instance.{scheme};
ghost use Rattle.point.specs.Correction.{corrected_child};
ghost use Rattle.point.specs.Evaluation.{descend, corrected_payload, share_below};
ghost use Rattle.nodes.specs.NodeLayout.{node_of, correction_of};

use expander::Expander;
use nodes::{Correction, Node, child, corrected, draw};

// The bit correction of a side: left for false, right for true.
fn bit_correction(c: Correction, x: bool) -> bool
    ensures { result ≡ cond x c.right c.left }
{
    if x { c.right } else { c.left }
}

// The child of a node on side x, corrected.
pub(crate) fn corrected_child(e: Expander, c: Correction, x: bool, m: Node) -> Node
    ensures { node_of result ≡ corrected_child (scheme e) (correction_of c) x (node_of m) }
{
    let seed = m.seed;
    let correction = c.seed;
    corrected(m.bit, correction, bit_correction(c, x), child(e, seed, x))
}

// The node one bit x further down.
pub(crate) fn descend(e: Expander, c: Correction, x: bool, m: Node) -> Node
    ensures { node_of result ≡ descend (scheme e) (correction_of c) x (node_of m) }
{
    let below = corrected_child(e, c, x, m);
    let seed = below.seed;
    Node {
        seed: expander::block(e, seed, 2),
        bit: below.bit,
    }
}

// A payload w with the correction v added where the control bit is set.
pub(crate) fn with_correction(bit: bool, w: u64, v: u64) -> u64
    ensures { result ≡ cond bit (field.add w v) w }
{
    if bit { group::add(w, v) } else { w }
}

// A value as server b's share: negated for b = 1.
pub(crate) fn as_share(b: bool, v: u64) -> u64
    ensures { result ≡ cond b (field.neg v) v }
{
    if b { group::negate(v) } else { v }
}

// The payload of a corrected node, plus the payload correction v if its control bit is 1.
fn corrected_payload(e: Expander, v: u64, m: Node) -> u64
    ensures { result ≡ corrected_payload (scheme e) v (node_of m) }
{
    let seed = m.seed;
    let w = draw(expander::block(e, seed, 3));
    with_correction(m.bit, w, v)
}

// Server b's share one bit x further down than a node.
pub(crate) fn share_below(e: Expander, b: bool, c: Correction, x: bool, m: Node) -> u64
    ensures { result ≡ share_below (scheme e) b (correction_of c) x (node_of m) }
{
    let below = corrected_child(e, c, x, m);
    let v = corrected_payload(e, c.payload, below);
    as_share(b, v)
}
