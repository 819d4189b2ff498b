// How much space is enough for the record and the list of a search over honest reports.
#![tactic(auto)]

ghost use Rattle.std.specs.Prelude.{◌≡◌, ◌-◌, ◌≤◌, ◌<◌};
ghost use Rattle.tree.specs.Space.{level_length, space_from, fewest_holders};
ghost use Rattle.space.specs.SearchSpace.{outside_bounds, named_record_space, named_list_space};

use bits::packed_length;
use tree::HEADING_LENGTH;

// Whether n, t or the number of reports is outside its bounds.
fn outside_bounds(n: u64, weighted: bool, t: u64, reports: u64) -> bool
    ensures { result ≡ outside_bounds n weighted t reports }
{
    calls::length_outside(n)
        || calls::threshold_outside(weighted, t)
        || calls::too_many_reports(reports as usize)
}

// How many installations hold a kept prefix, at least.
fn fewest_holders(weighted: bool, t: u64) -> u64
    requires { (1 ≤ t) × (t ≤ 2147483647) }
    ensures { (result ≡ fewest_holders weighted t) × (1 ≤ result) }
{
    if weighted {
        return t.div_ceil(32767);
    }
    t
}

// What a level with `count` prefixes of k + 1 bits adds to a record.
fn level_length(k: usize, count: usize) -> usize
    requires { (k < 256) × (count ≤ 131070) }
    ensures { (result ≡ level_length k count) × (result ≤ 5242806) }
{
    if count < 1 {
        return 0;
    }
    6 + count * (packed_length(k + 1) + 8)
}

// What the levels below the first add to the record of strings of n bits, if at most `most` prefixes of each length are kept.
fn levels_length(n: usize, most: usize) -> usize
    requires { (1 ≤ n) × (n ≤ 256) × (most ≤ 65535) }
    ensures { (result ≡ space_from most (n - 1) 1) × (result ≤ 1342158336) }
{
    let mut space = 0;
    let mut kept = most.min(2);
    for k in 1..n {
        space += level_length(k, 2 * kept);
        kept = most.min(2 * kept);
    }
    space
}

// Space that is enough for the record of a search over this many honest reports; 0 where an argument is outside its bounds.
// 0 stays a number where an argument is outside its bounds, here and below: C reads it so.
pub fn record_space(n: u64, weighted: bool, t: u64, reports: u64) -> u64
    ensures { result ≡ named_record_space n weighted t reports }
{
    if outside_bounds(n, weighted, t, reports) {
        return 0;
    }
    let most = reports / fewest_holders(weighted, t);
    let first = HEADING_LENGTH + level_length(0, 2);
    (first + levels_length(n as usize, most as usize)) as u64
}

// Space that is enough for the list of a search over this many honest reports; 0 where an argument is outside its bounds.
pub fn list_space(n: u64, weighted: bool, t: u64, reports: u64) -> u64
    ensures { result ≡ named_list_space n weighted t reports }
{
    if outside_bounds(n, weighted, t, reports) {
        return 0;
    }
    let strings = reports / fewest_holders(weighted, t);
    strings * (packed_length(n as usize) as u64)
}
