// The last query and the parents of a new query's prefixes in it. Every published function answers for all inputs.
#![tactic(auto)]

ghost use Rattle.std.specs.Prelude.{◌≡◌, ℕ, ◌-◌, ◌≤◌, ◌<◌, MatchOption, get_or, eqb};
ghost use Rattle.point.specs.PublicShare.{every};
ghost use Rattle.parents.specs.Parents.{is_last};
ghost use Rattle.parents.specs.Lookup.{last_count, last_length, agree, is_parent, up_from, down_from, looked_up, unparented};

use places::{byte_at, wide};

// How many prefixes the last query has: one where no bytes are lent.
pub fn last_count(last: &[u8]) -> usize
    ensures { (result ≡ last_count last.now) × (result < 4294967296) }
{
    if last.is_empty() {
        return 1;
    }
    query::prefix_count(last)
}

// How many bits each of them has: none where no bytes are lent.
fn last_length(last: &[u8]) -> usize
    ensures { (result ≡ last_length last.now) × (result ≤ 65536) }
{
    if last.is_empty() {
        return 0;
    }
    query::prefix_length(last)
}

// Whether the bytes are a last query for strings of n bits: no bytes, or a query.
pub fn is_last(n: u64, last: &[u8]) -> bool
    ensures { result ≡ is_last n last.now }
{
    last.is_empty() || query::is_query(n, last)
}

// Whether the first w bytes agree, from the last of them on. No `==` of slices: a byte past the end counts as 0, and neighbours in a query differ in
// their last bytes. No chain over a range turned round: with it a search for parents was measured at up to 1.4 times as long.
fn same_bytes(a: &[u8], b: &[u8], w: usize) -> bool
    ensures { result ≡ every w (λ i. eqb (get_or a.now i 0) (get_or b.now i 0)) }
{
    for i in 0..w {
        let from = w - 1 - i;
        if byte_at(a, from) != byte_at(b, from) {
            return false;
        }
    }
    true
}

// Whether the first k bits agree.
// No equality of the library: bits are not bytes, and what is past the end counts as zeros.
fn same_bits(a: &[u8], b: &[u8], k: usize) -> bool
    ensures { result ≡ agree k a.now b.now }
{
    let whole = k / 8;
    let past = 8 - k % 8;
    wide(byte_at(a, whole)) >> past == wide(byte_at(b, whole)) >> past && same_bytes(a, b, whole)
}

// The first place from `from` on, below m, at which the first k bits of `child` stand in the last query.
// It and `down_from` stay two: so are the definitions, and each is one line.
fn up_from(last: &[u8], m: usize, child: &[u8], k: usize, from: usize) -> Option<usize>
    ensures { MatchOption result (m ≤ up_from (is_parent last.now child.now k) from (m - from)) (λ a. (a < m) × (up_from (is_parent last.now child.now k) from (m - from) ≡ a)) }
{
    (from..m).find(|a| same_bits(query::prefix_at(last, *a), child, k))
}

// The greatest place below `below` at which they stand.
fn down_from(last: &[u8], child: &[u8], k: usize, below: usize) -> Option<usize>
    ensures { (none : ℕ) → MatchOption result (down_from (is_parent last.now child.now k) none below ≡ none) (λ a. (a < below) × (down_from (is_parent last.now child.now k) none below ≡ a)) }
{
    (0..below)
        .rev()
        .find(|a| same_bits(query::prefix_at(last, *a), child, k))
}

// The place, among the first m of the last query, of the parent of a packed child of k + 1 bits, looked for from `hint` on, upwards or downwards, and
// where there is none from the beginning.
// `up` stays a flag: the definition `looked_up` is made by it.
fn find_parent(
    last: &[u8],
    m: usize,
    child: &[u8],
    k: usize,
    up: bool,
    hint: usize,
) -> Option<usize>
    ensures { MatchOption result (looked_up up (is_parent last.now child.now k) m hint ≡ m) (λ a. (a ≡ looked_up up (is_parent last.now child.now k) m hint) × (a < m)) }
{
    if up {
        return up_from(last, m, child, k, hint).or_else(|| up_from(last, m, child, k, 0));
    }
    let below = m.min(hint.saturating_add(1));
    down_from(last, child, k, below).or_else(|| down_from(last, child, k, m))
}

// The same place; m where there is none, as a number: what turns promises of its parents counts with it.
pub fn parent_place(last: &[u8], m: usize, child: &[u8], k: usize, up: bool, hint: usize) -> usize
    ensures { result ≡ looked_up up (is_parent last.now child.now k) m hint }
{
    find_parent(last, m, child, k, up, hint).unwrap_or(m)
}

// Whether some prefix of the new query has no parent in the last one.
pub fn parent_missing(last: &[u8], query: &[u8]) -> bool
    ensures { result ≡ unparented last.now query.now }
{
    let k = last_length(last);
    if query::prefix_length(query) != k + 1 {
        return true;
    }
    let m = last_count(last);
    let mut hint = 0;
    for j in 0..query::prefix_count(query) {
        let child = query::prefix_at(query, j);
        let Some(place) = find_parent(last, m, child, k, true, hint) else {
            return true;
        };
        hint = place;
    }
    false
}
