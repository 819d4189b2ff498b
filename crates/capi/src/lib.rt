// The functions that C and Rust link, which crate `capi_c` exports.
// Each argument is lent on its own, and what is returned are structs of numbers: C reads it so.
#![tactic(auto)]

mod one_block;
mod told;

ghost use Rattle.std.specs.Prelude.{◌≡◌, map, length};
ghost use Rattle.calls.specs.Outcome.{left};
ghost use Rattle.capi.specs.Block.{block_exit};
ghost use Rattle.capi.specs.Combined.{in_c, combine_in_c};
ghost use Rattle.exam_answering.specs.Exam.{exam_exit, respond_exit};
ghost use Rattle.keymaker.specs.Key.{key_exit};
ghost use Rattle.idpf.specs.Share.{share_exit};
ghost use Rattle.nodes.specs.NodeLayout.{node_of};
ghost use Rattle.node_lists.specs.Roots.{roots_number, roots_after};
ghost use Rattle.node_lists.specs.ShareKept.{lent as kept_lent, kept_exit, kept_left};
ghost use Rattle.search.specs.Search.{lent, search_ending, returned};
ghost use Rattle.shares.specs.Add.{add_exit};
ghost use Rattle.space.specs.SearchSpace.{named_record_space, named_list_space};

use crate::one_block::write_block;
use calls::Reply;
use nodes::Node;
use search::Found;

// Writes block j of a seed of 16 bytes; refuses with 3, 4 or 11.
pub fn tally_block(expander: u64, seed: &[u8], j: u64, block: &mut [u8]) -> Reply
    ensures { left result block.new ≡ block_exit expander seed.now j block.old }
{
    Reply::from(write_block(expander, seed, j, block))
}

// Writes the public share of a packed string of n bits with its weight; refuses with 1, 3, 4, 7 or 11.
pub fn tally_key(
    n: u64,
    expander: u64,
    weight: i16,
    string: &[u8],
    seed0: &[u8],
    seed1: &[u8],
    public_share: &mut [u8],
) -> Reply
    ensures { left result public_share.new ≡ key_exit n expander weight string.now seed0.now seed1.now
        public_share.old }
{
    Reply::from(keymaker::make_key(n, expander, weight, string, seed0, seed1, public_share))
}

// Writes a server's share for a query, 8 bytes a prefix; the server is told by a truth value, true for 1. Refuses with 1, 3, 4, 5, 6,
// 7, 9 or 11.
pub fn tally_share(
    n: u64,
    expander: u64,
    server: bool,
    seeds: &[u8],
    public_shares: &[u8],
    query: &[u8],
    share: &mut [u8],
) -> Reply
    ensures { left result share.new ≡ share_exit n expander server seeds.now public_shares.now query.now
        share.old }
{
    Reply::from(idpf::share(n, expander, server, seeds, public_shares, query, share))
}

// Writes the list of nodes at the roots: for each seed a node with it and the server's bit. Returns 4, 5 or 13 where it refuses, and else 0.
pub fn tally_roots(server: bool, seeds: &[u8], nodes: &mut [Node]) -> u64
    ensures { (result ≡ roots_number seeds.now (length nodes.old))
        × (map node_of nodes.new ≡ roots_after server seeds.now (map node_of nodes.old)) }
{
    match kept_nodes::write_roots(server, seeds, nodes) {
        Ok(()) => 0,
        Err(refusal) => refusal.number(),
    }
}

// Writes a server's share for a query from the nodes kept at the last one, and leaves in their place those at the new one; no bytes are lent for the last
// query where the nodes are at the roots. Refuses with 1, 3, 4, 5, 6, 7, 9, 13, 14 or 11.
pub fn tally_share_kept(
    n: u64,
    expander: u64,
    server: bool,
    public_shares: &[u8],
    last_query: &[u8],
    query: &[u8],
    nodes: &mut [Node],
    share: &mut [u8],
) -> Reply
    ensures { kept_left result share.new (map node_of nodes.new)
        ≡ kept_exit (kept_lent n expander server public_shares.now last_query.now query.now (map node_of nodes.old) share.old) }
{
    Reply::from(kept_nodes::share_kept(
        n,
        expander,
        server,
        public_shares,
        last_query,
        query,
        nodes,
        share,
    ))
}

// Writes the sum, number by number, of two shares of one server for one query; refuses with 4, 6 or 11.
pub fn tally_add(share0: &[u8], share1: &[u8], out: &mut [u8]) -> Reply
    ensures { left result out.new ≡ add_exit share0.now share1.now out.old }
{
    Reply::from(shares::add_shares(share0, share1, out))
}

// What combining returns: the number of the cause that refused it, or 0; the kind of its answer, 0 for a refusal, 1 for the next query, 2 for the
// list, 3 where the search ended; and how many bytes were written.
#[repr(C)]
#[derive(Clone, Copy)]
pub struct CombineReply {
    pub number: u64,
    pub kind: u64,
    pub length: u64,
}

// Writes the next query, or at length n the list, from two servers' shares for a query; refuses with 1, 2, 4, 6, 9 or 11, and with 12 in the place of 2
// where the search is weighted.
pub fn tally_combine(
    n: u64,
    weighted: bool,
    t: u64,
    query: &[u8],
    share0: &[u8],
    share1: &[u8],
    out: &mut [u8],
) -> CombineReply
    ensures { in_c result out.new ≡ combine_in_c n weighted t query.now share0.now share1.now out.old }
{
    CombineReply::from(combine::combine(n, weighted, t, query, share0, share1, out))
}

// Writes the record and the list of a whole search; refuses with 1 to 8, with 12 in the place of 2 where it is weighted, or with 11, and then makes every
// byte of the record area zero.
pub fn tally_search(
    n: u64,
    weighted: bool,
    t: u64,
    expander: u64,
    seeds0: &[u8],
    public_shares0: &[u8],
    seeds1: &[u8],
    public_shares1: &[u8],
    record: &mut [u8],
    list: &mut [u8],
) -> Found
    ensures { returned result «record».new list.new ≡ search_ending (lent n weighted t expander seeds0.now
        public_shares0.now
        seeds1.now public_shares1.now «record».old list.old) }
{
    Found::from(search::search(
        n,
        weighted,
        t,
        expander,
        seeds0,
        public_shares0,
        seeds1,
        public_shares1,
        record,
        list,
    ))
}

// Answers an exam text: a line for each queried prefix, then the heavy strings; refuses with 10, 1, 2, 3 or 11.
pub fn tally_exam(text: &[u8], out: &mut [u8]) -> Reply
    ensures { left result out.new ≡ exam_exit text.now out.old }
{
    Reply::from(exam_answering::answer(text, out))
}

// Writes the whole output for an exam text: the answer, or the line of the refusal; refuses with 11 where it does not fit.
pub fn tally_respond(text: &[u8], out: &mut [u8]) -> Reply
    ensures { left result out.new ≡ respond_exit text.now out.old }
{
    Reply::from(exam_answering::respond(text, out))
}

// Space that is enough for the record of a search over this many honest reports; 0 where an argument is outside its bounds.
pub fn tally_record_space(n: u64, weighted: bool, t: u64, reports: u64) -> u64
    ensures { result ≡ named_record_space n weighted t reports }
{
    space::record_space(n, weighted, t, reports)
}

// Space that is enough for the list of a search over this many honest reports; 0 where an argument is outside its bounds.
pub fn tally_list_space(n: u64, weighted: bool, t: u64, reports: u64) -> u64
    ensures { result ≡ named_list_space n weighted t reports }
{
    space::list_space(n, weighted, t, reports)
}
