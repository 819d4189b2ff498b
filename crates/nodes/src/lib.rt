// Nodes of the tree and correction words, by value, the steps that the key maker and the servers share, and where the levels of a public share stand.
#![tactic(auto)]

ghost use Rattle.std.specs.Prelude.{◌≡◌, ◌%◌, ◌<◌, take};
ghost use Rattle.numbers.specs.Numbers.{from_little};
ghost use Rattle.group.specs.Modular.{p};
ghost use Rattle.point.specs.Instance.{scheme};
ghost use Rattle.point.specs.Node.{control_bit, cleared, child};
ghost use Rattle.point.specs.Correction.{corrected};
ghost use Rattle.point.specs.PublicShare.{level_start, public_share_length};
ghost use Rattle.nodes.specs.NodeLayout.{node_of};

use expander::Expander;

// A seed and a control bit.
#[repr(C)]
#[derive(Clone, Copy)]
pub struct Node {
    pub seed: [u8; 16],
    pub bit: bool,
}

// The correction word of a level.
#[derive(Clone, Copy)]
pub struct Correction {
    pub seed: [u8; 16],
    pub left: bool,
    pub right: bool,
    pub payload: u64,
}

// The control bit of a block, and the block without it.
pub fn split(block: [u8; 16]) -> Node
    ensures { (result.seed ≡ cleared block) × (result.bit ≡ control_bit block) }
{
    let first = block[0];
    let mut seed = block;
    seed[0] = first - first % 2;
    Node {
        seed,
        bit: first % 2 == 1,
    }
}

// The child of a seed before correction: left for false, right for true.
pub fn child(e: Expander, seed: [u8; 16], x: bool) -> Node
    ensures { node_of result ≡ child (scheme e) seed x }
{
    split(expander::block(e, seed, u64::from(x)))
}

// A child with the seed and bit corrections XORed in where `on` is set.
// `on` stays a flag: the definition `corrected` is made by it.
pub fn corrected(on: bool, seed: [u8; 16], bit: bool, m: Node) -> Node
    ensures { node_of result ≡ corrected on seed bit (node_of m) }
{
    if !on {
        return m;
    }
    Node {
        seed: expander::xor(m.seed, seed),
        bit: m.bit ^ bit,
    }
}

// The payload that the first bytes of block 3 draw.
pub fn draw(block: [u8; 16]) -> u64
    ensures { (result ≡ from_little (take 8 block) % p) × (result < p) }
{
    group::reduce(numbers::read_le8(&block, 0))
}

// How many bytes the public share of n levels takes.
pub fn public_share_length(n: u16) -> usize
    ensures { result ≡ public_share_length n }
{
    level_start(n, n)
}

// Where level k of n begins.
pub fn level_start(n: u16, k: u16) -> usize
    ensures { result ≡ level_start n k }
{
    usize::from(n).div_ceil(4) + 24 * usize::from(k)
}
