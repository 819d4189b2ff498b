// Queries as bytes: their fields, their prefixes in place, and the check of cause 9. Every published function answers for all inputs.
#![tactic(auto)]

ghost use Rattle.std.specs.Prelude.{◌≡◌, true, map, ◌/◌, ◌≤◌, ◌<◌, length};
ghost use Rattle.bits.specs.Packing.{packed_length, unpack};
ghost use Rattle.query.specs.Query.{prefix_length, prefix_count, parts, spares_zero, is_ascending, is_query};
ghost use Rattle.query.specs.Prefix.{packed_prefix};

mod writing;

pub use writing::{write_both_children, write_fields, write_prefix};

// The prefix length of a query.
pub fn prefix_length(q: &[u8]) -> usize
    ensures { (result ≡ prefix_length q.now) × (1 ≤ result) × (result ≤ 65536) }
{
    numbers::read_be2(q, 0) as usize + 1
}

// How many prefixes a query says it has.
pub fn prefix_count(q: &[u8]) -> usize
    ensures { (result ≡ prefix_count q.now) × (result < 4294967296) }
{
    numbers::read_be4(q, 2) as usize
}

// Prefix i, packed, as a part of the query.
pub fn prefix_at(q: &[u8], i: usize) -> &[u8]
    ensures { result.now ≡ packed_prefix q.now i }
{
    let w = bits::packed_length(prefix_length(q));
    if q.len() < 6 {
        return &q[..0];
    }
    if (q.len() - 6) / w <= i {
        return &q[..0];
    }
    let at = 6 + i * w;
    let end = at + w;
    &q[at..end]
}

// Whether the spare bits of each packed string of len bits are zero.
// It counts places, here and in `in_order`: by chains of chunks a query of many prefixes takes 1.5 times as long.
fn spares_zero(packed: &[u8], len: usize) -> bool
    requires { 1 ≤ len }
    ensures { result ≡ spares_zero len (parts (packed_length len) (length packed.now / packed_length len) packed.now) }
{
    let w = bits::packed_length(len);
    let mut at = 0;
    for _ in 0..packed.len() / w {
        let end = at + w;
        if !bits::spare_zero(&packed[at..end], len) {
            return false;
        }
        at = end;
    }
    true
}

// Whether each packed string of len bits, all of them without spare bits, stands before the next.
fn in_order(packed: &[u8], len: usize) -> bool
    requires { (1 ≤ len) × (spares_zero len (parts (packed_length len) (length packed.now / packed_length len) packed.now) ≡ true) }
    ensures { result ≡ is_ascending (map (unpack len) (parts (packed_length len) (length packed.now / packed_length len) packed.now)) }
{
    let w = bits::packed_length(len);
    let mut at = 0;
    for _ in 1..packed.len() / w {
        let middle = at + w;
        let end = middle + w;
        if !bits::before(&packed[at..middle], &packed[middle..end]) {
            return false;
        }
        at = middle;
    }
    true
}

// Whether the bytes are a query for strings of n bits.
pub fn is_query(n: u64, q: &[u8]) -> bool
    ensures { result ≡ is_query n q.now }
{
    let len = prefix_length(q);
    let count = prefix_count(q);
    if n < len as u64 {
        return false;
    }
    if count < 1 {
        return false;
    }
    if 131070 < count {
        return false;
    }
    let w = bits::packed_length(len);
    if q.len() != 6 + count * w {
        return false;
    }
    let packed = &q[6..];
    if !spares_zero(packed, len) {
        return false;
    }
    in_order(packed, len)
}
