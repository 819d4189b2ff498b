// Lists of nodes: the causes of the calls that write them, and the nodes at the roots.
#![tactic(auto)]

ghost use Rattle.std.specs.Prelude.{◌≡◌, Some, IfOk, not, ◌*◌, ◌/◌, ◌%◌, ◌<◌, length, eqb};
ghost use Rattle.calls.specs.Causes.{number_due};
ghost use Rattle.calls.specs.Refusals.{number_in};
ghost use Rattle.expander.specs.Expander.{choice_of};
ghost use Rattle.places.specs.Places.{window};
ghost use Rattle.point.specs.PublicShare.{public_share_length};
ghost use Rattle.node_lists.specs.NodeList.{share_count};
ghost use Rattle.node_lists.specs.Roots.{roots_number};
ghost use Rattle.node_lists.specs.Filling.{root_node};
ghost use Rattle.node_lists.specs.ShareKept.{too_few_nodes, kept_causes};
ghost use Rattle.node_lists.specs.Judging.{report_causes, query_causes};

use calls::Refusal;
use expander::Expander;
use nodes::{Node, public_share_length};

// How many reports the public shares are of; none where n = 0.
pub fn share_count(n: u16, shares: &[u8]) -> usize
    ensures { result ≡ share_count n shares.now }
{
    shares
        .len()
        .checked_div(public_share_length(n))
        .unwrap_or(0)
}

// Whether the public shares are not whole.
fn not_whole(n: u16, shares: &[u8]) -> bool
    requires { 0 < n }
    ensures { result ≡ not (eqb (length shares.now % public_share_length n) 0) }
{
    shares.len() % public_share_length(n) != 0
}

// Whether fewer nodes are lent than so many reports × prefixes of the last or of the new query.
#[tactic(auto, using(parents::proofs::Last::last_count_lem, parents::proofs::Last::prefixes_length))]
fn too_few_nodes(reports: usize, last: &[u8], query: &[u8], count: usize) -> bool
    requires { reports < 65536 }
    ensures { result ≡ too_few_nodes reports last.now query.now count }
{
    count < reports * parents::last_count(last) || count < reports * query::prefix_count(query)
}

// The expander under which the reports are read, or the first cause of what a server is lent that applies.
fn check_reports(n: u64, expander: u64, shares: &[u8]) -> Result<Expander, Refusal>
    ensures number { number_in result ≡ number_due (report_causes n expander shares.now) }
    ensures chosen { IfOk result (λ e. choice_of expander ≡ Some e) }
{
    if calls::length_outside(n) {
        return Err(Refusal::StringLength);
    }
    let e = Expander::try_from(expander)?;
    let levels = n as u16;
    if not_whole(levels, shares) {
        return Err(Refusal::Lengths);
    }
    let reports = share_count(levels, shares);
    if calls::too_many_reports(reports) {
        return Err(Refusal::TooManyReports);
    }
    if !report_sums::all_payloads_below(levels, reports, shares) {
        return Err(Refusal::PayloadTooLarge);
    }
    if !report_sums::all_spare_bits_zero(levels, reports, shares) {
        return Err(Refusal::SpareBits);
    }
    Ok(e)
}

// The first cause of the queries, the nodes and the space that applies.
#[tactic(auto, using(parents::proofs::Parented::missing_exact))]
fn check_queries(
    n: u64,
    reports: usize,
    last: &[u8],
    query: &[u8],
    count: usize,
    room: usize,
) -> Result<(), Refusal>
    requires { reports < 65536 }
    ensures { number_in result ≡ number_due (query_causes n reports last.now query.now count room) }
{
    if !parents::is_last(n, last) || !query::is_query(n, query) {
        return Err(Refusal::Query);
    }
    if too_few_nodes(reports, last, query, count) {
        return Err(Refusal::Nodes);
    }
    if parents::parent_missing(last, query) {
        return Err(Refusal::NoParent);
    }
    if room < 8 * query::prefix_count(query) {
        return Err(Refusal::NoSpace);
    }
    Ok(())
}

// The expander of a call of `share_kept`, or its first cause that applies, where `count` nodes and `room` bytes are lent.
// C lends these one by one.
pub fn check_kept(
    n: u64,
    expander: u64,
    shares: &[u8],
    last: &[u8],
    query: &[u8],
    count: usize,
    room: usize,
) -> Result<Expander, Refusal>
    ensures number { number_in result ≡ number_due (kept_causes n expander shares.now last.now query.now count room) }
    ensures chosen { IfOk result (λ e. choice_of expander ≡ Some e) }
{
    let e = check_reports(n, expander, shares)?;
    check_queries(n, share_count(n as u16, shares), last, query, count, room)?;
    Ok(e)
}

// How many roots there are, or the first cause of `write_roots` that applies, where `count` nodes are lent.
pub fn count_roots(seeds: &[u8], count: usize) -> Result<usize, Refusal>
    ensures number { number_in result ≡ roots_number seeds.now count }
    ensures counted { IfOk result (λ m. m ≡ length seeds.now / 16) }
{
    let reports = seeds.len() / 16;
    if seeds.len() % 16 != 0 {
        return Err(Refusal::Lengths);
    }
    if calls::too_many_reports(reports) {
        return Err(Refusal::TooManyReports);
    }
    if count < reports {
        return Err(Refusal::Nodes);
    }
    Ok(reports)
}

// The 16 bytes of seed i; zeros where they are not all there.
#[tactic(auto, using(places::proofs::Places::window_outside))]
fn seed_at(seeds: &[u8], i: usize) -> [u8; 16]
    ensures { result ≡ window 16 (16 * i) seeds.now }
{
    if seeds.len() / 16 <= i {
        return [0u8; 16];
    }
    places::read16(seeds, 16 * i)
}

// The node at root i.
#[tactic(auto, unfolding(crate::specs::Filling::root_node))]
pub fn root(server: bool, seeds: &[u8], i: usize) -> Node
    ensures { result ≡ root_node server seeds.now i }
{
    let seed = seed_at(seeds, i);
    Node { seed, bit: server }
}
