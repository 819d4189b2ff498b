// One level down from a list of nodes, in its own place: the task, the place of each turn, and what a turn makes of a node and of the sums.
#![tactic(auto)]

ghost use Rattle.std.specs.Prelude.{◌≡◌, ◌+◌, ◌*◌, ◌-◌, ◌<◌, Some, MatchResult, cond, length, ltb};
ghost use Rattle.calls.specs.Causes.{number_due};
ghost use Rattle.calls.specs.Refusals.{number_in};
ghost use Rattle.expander.specs.Expander.{choice_of};
ghost use Rattle.node_lists.specs.ShareKept.{kept_causes};
ghost use Rattle.turns.specs.Turns.{task_under, cleared, nowhere, place_for, first_place, next_place, turned_node, added_at, turned_sums};

use calls::Refusal;
use expander::Expander;
use nodes::Node;

// What a call is to do: the expander; how many levels a public share has; the server; the level that is gone down; how many reports there are,
// prefixes in the last query, and prefixes in the new one. The public shares and the queries are handed on beside it: the definitions of `specs/Turns` are
// over a task of numbers, and one that borrows would put its references into each of them.
#[derive(Clone, Copy)]
pub struct Task {
    pub expander: Expander,
    pub levels: u16,
    pub server: bool,
    pub level: u16,
    pub reports: u16,
    pub before: u32,
    pub after: u32,
}

// A turn: how many turns are left with it; its report, its prefix, and the place of the parent; whether it is due; the node that it reads, and the one
// that it writes.
#[derive(Clone, Copy)]
pub struct Place {
    pub left: usize,
    pub report: usize,
    pub prefix: usize,
    pub parent: usize,
    pub due: bool,
    pub source: usize,
    pub target: usize,
}

// No turn to take, with so many left.
// No `None`, and `due` stays a flag: `place_for` and `turned_node` of the definitions are made so.
fn nowhere(left: usize) -> Place
    ensures { result ≡ nowhere left }
{
    Place {
        left,
        report: 0,
        prefix: 0,
        parent: 0,
        due: false,
        source: 0,
        target: 0,
    }
}

// The new node that a turn writes, where `left` of twice `count` turns are left: upwards in the first half, downwards in the second.
fn target_of(count: usize, left: usize) -> usize
    requires { (count < 281474976710656) × (0 < left) }
    ensures { result ≡ cond (ltb count left) (count + count - left) (left - 1) }
{
    if left <= count {
        return left - 1;
    }
    (count + count).saturating_sub(left)
}

// The place with `left` turns left, its parent looked for from `hint` on.
#[tactic(auto, using(crate::proofs::Placing::count_small, crate::proofs::Placing::count_some, crate::proofs::Placing::target_below, crate::proofs::Placing::from_small, crate::proofs::Placing::looked_most), unfolding(crate::specs::Turns::place_for))]
fn place_for(task: Task, last: &[u8], query: &[u8], left: usize, hint: usize) -> Place
    ensures { result ≡ place_for task last.now query.now left hint }
{
    let after = task.after as usize;
    let before = task.before as usize;
    let count = task.reports as usize * after;
    if left == 0 || count == 0 {
        return nowhere(left);
    }
    let up = count < left;
    let target = target_of(count, left);
    let report = target / after;
    let prefix = target % after;
    let child = query::prefix_at(query, prefix);
    let parent = parents::parent_place(last, before, child, task.level as usize, up, hint);
    let from = report * before + parent;
    let due = up == (target < from);
    Place {
        left,
        report,
        prefix,
        parent,
        due,
        source: if due { from } else { target },
        target,
    }
}

// The first place.
#[tactic(auto, using(crate::proofs::Placing::count_small), unfolding(crate::specs::Turns::first_place))]
pub fn first(task: Task, last: &[u8], query: &[u8]) -> Place
    ensures { result ≡ first_place task last.now query.now }
{
    let count = task.reports as usize * (task.after as usize);
    place_for(task, last, query, 2 * count, 0)
}

// The place after another.
#[tactic(auto, unfolding(crate::specs::Turns::next_place))]
fn after(task: Task, last: &[u8], query: &[u8], at: Place) -> Place
    ensures { result ≡ next_place task last.now query.now at }
{
    place_for(task, last, query, at.left.saturating_sub(1), at.parent)
}

// Adds a share to the sum at place j.
#[tactic(auto, using(crate::proofs::Placing::not_written), unfolding(crate::specs::Turns::added_at))]
fn add_at(out: &mut [u8], j: usize, share: u64)
    ensures { out.new ≡ added_at j share out.old }
{
    if out.len() / 8 <= j {
        return;
    }
    let sum = group::add(numbers::read_le8(out, 8 * j), share);
    numbers::write_le8(out, 8 * j, sum);
}

// One turn: what it makes of the node at its source and of the sums; the node to write, and the next place.
// What is handed on beside the task is said at `Task`, here and in `advance` of `kept_nodes`.
#[tactic(auto, unfolding(crate::specs::Turns::turned_node, crate::specs::Turns::turned_sums))]
pub fn turn(
    task: Task,
    shares: &[u8],
    last: &[u8],
    query: &[u8],
    at: Place,
    m: Node,
    out: &mut [u8],
) -> (Node, Place)
    ensures { (result.0 ≡ turned_node task shares.now query.now at m)
        × (result.1 ≡ next_place task last.now query.now at)
        × (out.new ≡ turned_sums task shares.now query.now at m out.old) }
{
    let next = after(task, last, query, at);
    if !at.due {
        return (m, next);
    }
    let share = report_sums::public_share_at(task.levels, shares, at.report);
    let level = task.level;
    let x = bits::bit_at(query::prefix_at(query, at.prefix), level as usize);
    let (node, sum) = walk::step_down(task.expander, task.levels, task.server, share, level, x, m);
    add_at(out, at.prefix, sum);
    (node, next)
}

// Judges a call that is lent `count` nodes, and makes its sums zero where no cause applies.
// C lends these one by one.
#[tactic(auto, using(crate::proofs::Begun::begun_ready), unfolding(crate::specs::Turns::cleared, places::specs::Places::overlay))]
pub fn begin(
    n: u64,
    expander: u64,
    server: bool,
    shares: &[u8],
    last: &[u8],
    query: &[u8],
    count: usize,
    out: &mut [u8],
) -> Result<Task, Refusal>
    ensures number { number_in result ≡ number_due (kept_causes n expander shares.now last.now query.now count (length out.old)) }
    ensures begun { MatchResult result
        (λ t. (choice_of expander ≡ Some t.expander) × (t ≡ task_under t.expander n server shares.now last.now query.now) × (out.new ≡ cleared t out.old))
        (λ _. out.new ≡ out.old) }
{
    let e = node_lists::check_kept(n, expander, shares, last, query, count, out.len())?;
    let after = query::prefix_count(query);
    out[..8 * after].fill(0);
    let levels = n as u16;
    Ok(Task {
        expander: e,
        levels,
        server,
        level: (query::prefix_length(query) - 1) as u16,
        reports: node_lists::share_count(levels, shares) as u16,
        before: parents::last_count(last) as u32,
        after: after as u32,
    })
}

// How many bytes the share takes.
pub fn share_length(task: Task) -> u64
    ensures { result ≡ 8 * task.after }
{
    8 * (task.after as u64)
}
