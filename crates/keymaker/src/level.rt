// One level of the key maker: the correction word, and both servers' next nodes.
ghost use Rattle.std.specs.Prelude.{◌≡◌, true, false, cond};
ghost use Rattle.group.specs.Modular.{field};
ghost use Rattle.point.specs.Instance.{scheme};
ghost use Rattle.point.specs.Node.{child, final, payload_of};
ghost use Rattle.point.specs.Correction.{corrected};
ghost use Rattle.point.specs.Keys.{seed_correction, left_correction, right_correction, kept_child, correction};
ghost use Rattle.nodes.specs.NodeLayout.{node_of, correction_of};

use expander::Expander;
use nodes::{Correction, Node, corrected, draw, split};

// A level before the payloads are drawn: seed and bit corrections, and the kept children, corrected.
#[derive(Clone, Copy)]
struct Kept {
    seed: [u8; 16],
    left: bool,
    right: bool,
    kept: (Node, Node),
}

// Both children of a seed before correction, left and right, from one key schedule.
fn both_children(e: Expander, seed: [u8; 16]) -> (Node, Node)
    ensures { (node_of result.0 ≡ child (scheme e) seed false) × (node_of result.1 ≡ child (scheme e) seed true) }
{
    let (first, second) = expander::two_blocks(e, seed, 0, 1);
    (split(first), split(second))
}

// The seed of the child not taken, where the string's bit is a.
fn lose_seed(a: bool, both: (Node, Node)) -> [u8; 16]
    ensures { result ≡ cond a both.0.seed both.1.seed }
{
    if a { both.0.seed } else { both.1.seed }
}

// The child taken, corrected where `on` is set.
// `on` stays a flag: it is that of `corrected`.
fn keep(a: bool, on: bool, seed: [u8; 16], left: bool, right: bool, both: (Node, Node)) -> Node
    ensures { node_of result ≡ corrected on seed (cond a right left) (cond a (node_of both.1) (node_of both.0)) }
{
    let (bit, taken) = if a { (right, both.1) } else { (left, both.0) };
    corrected(on, seed, bit, taken)
}

// The seed and bit corrections of a level, and the kept children with them.
fn kept_children(e: Expander, a: bool, nodes: (Node, Node)) -> Kept
    ensures words { (result.seed ≡ seed_correction (scheme e) a (node_of nodes.0) (node_of nodes.1)) ×
        (result.left ≡ left_correction (scheme e) a (node_of nodes.0) (node_of nodes.1)) ×
        (result.right ≡ right_correction (scheme e) a (node_of nodes.0) (node_of nodes.1)) }
    ensures kept { (node_of result.kept.0 ≡ kept_child (scheme e) a (node_of nodes.0) (node_of nodes.1) (node_of nodes.0)) ×
        (node_of result.kept.1 ≡ kept_child (scheme e) a (node_of nodes.0) (node_of nodes.1) (node_of nodes.1)) }
{
    let (node0, node1) = nodes;
    let both0 = both_children(e, node0.seed);
    let both1 = both_children(e, node1.seed);
    let seed = expander::xor(lose_seed(a, both0), lose_seed(a, both1));
    let left = both0.0.bit ^ both1.0.bit ^ a ^ true;
    let right = both0.1.bit ^ both1.1.bit ^ a;
    let kept0 = keep(a, node0.bit, seed, left, right, both0);
    let kept1 = keep(a, node1.bit, seed, left, right, both1);
    Kept {
        seed,
        left,
        right,
        kept: (kept0, kept1),
    }
}

// The final node of a corrected one, and its payload.
fn finish(e: Expander, m: Node) -> (Node, u64)
    ensures { (node_of result.0 ≡ final (scheme e) (node_of m)) × (result.1 ≡ payload_of (scheme e) (node_of m)) }
{
    let (seed, third) = expander::two_blocks(e, m.seed, 2, 3);
    (Node { seed, bit: m.bit }, draw(third))
}

// w − W0 + W1, negated if the new t1 is 1, for the weight w.
fn payload_correction(weight: u64, t1: bool, w0: u64, w1: u64) -> u64
    ensures { result ≡ cond t1 (field.neg (field.add (field.add weight (field.neg w0)) w1)) (field.add (field.add weight (field.neg w0)) w1) }
{
    let d = group::add(group::add(weight, group::negate(w0)), w1);
    if t1 { group::negate(d) } else { d }
}

// The level at which the string's bit is a, with a weight: its correction word, and both servers' nodes below it.
pub(crate) fn next_level(
    e: Expander,
    weight: u64,
    a: bool,
    nodes: (Node, Node),
) -> (Correction, (Node, Node))
    ensures word { correction_of result.0 ≡ correction (scheme e) a (node_of nodes.0) (node_of nodes.1) weight }
    ensures next { (node_of result.1.0 ≡ final (scheme e) (kept_child (scheme e) a (node_of nodes.0) (node_of nodes.1)
        (node_of nodes.0))) × (node_of result.1.1 ≡ final (scheme e) (kept_child (scheme e) a (node_of nodes.0) (node_of nodes.1)
        (node_of nodes.1))) }
{
    let Kept {
        seed,
        left,
        right,
        kept: (kept0, kept1),
    } = kept_children(e, a, nodes);
    let (node0, payload0) = finish(e, kept0);
    let (node1, payload1) = finish(e, kept1);
    let payload = payload_correction(weight, kept1.bit, payload0, payload1);
    let word = Correction {
        seed,
        left,
        right,
        payload,
    };
    (word, (node0, node1))
}
