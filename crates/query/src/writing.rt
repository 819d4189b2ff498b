// Queries as they are written: the two fields, kept prefixes, and their children. What does not fit is not written at all.
// The place stays beside the bytes: the promises hold for every place, also one behind the end, from which no slice can be taken.
ghost use Rattle.std.specs.Prelude.{◌≡◌, cond, [], ◌++◌, ◌+◌, length, take};
ghost use Rattle.numbers.specs.Numbers.{big};
ghost use Rattle.bits.specs.Packing.{packed_length, pack, unpack};
ghost use Rattle.places.specs.Places.{put_at};
ghost use Rattle.query.specs.Prefix.{part};
ghost use Rattle.query.specs.Written.{fitting, both_children};

use bits::write_child;
use places::{copy, within};

// Writes the 6 bytes that begin a query for `count` prefixes of k + 1 bits, from place `at` on.
pub fn write_fields(out: &mut [u8], at: usize, k: u64, count: u64)
    ensures { out.new ≡ put_at out.old at (big 2 k ++ big 4 count) }
{
    if !within(out.len(), at, 6) {
        return;
    }
    numbers::write_be2(out, at, k);
    numbers::write_be4(out, at + 2, count);
}

// Writes the packed prefix in the w bytes of `source` from place `from` on into the places of `out` from `at` on, if it is kept; and the place after
// what is written.
// `kept` stays a flag, here and in `write_both_children`: their promises are made by it, for both of its values.
pub fn write_prefix(
    kept: bool,
    source: &[u8],
    from: usize,
    w: usize,
    out: &mut [u8],
    at: usize,
) -> usize
    ensures out_after { out.new ≡ put_at out.old at (cond kept (part w from source.now) []) }
    ensures value { result ≡ at + length (fitting out.old at (cond kept (part w from source.now) [])) }
{
    if !kept {
        return at;
    }
    let end = from.saturating_add(w);
    let prefix = source.get(from..end).unwrap_or(&[]);
    if !within(out.len(), at, prefix.len()) {
        return at;
    }
    copy(prefix, out, at);
    at + prefix.len()
}

// How many bytes a child takes of the prefix that the first len bits of `prefix` are.
fn child_length(prefix: &[u8], len: usize) -> usize
    ensures { result ≡ packed_length (length (unpack len prefix.now) + 1) }
{
    prefix.len().min(len / 8) + 1
}

// Writes both children of the prefix that the first len bits of `prefix` are, packed, into the places of `out` from `at` on, if it is kept; and the
// place after what is written.
pub fn write_both_children(
    kept: bool,
    prefix: &[u8],
    len: usize,
    out: &mut [u8],
    at: usize,
) -> usize
    ensures out_after { out.new ≡ put_at out.old at (cond kept (both_children (unpack len prefix.now)) []) }
    ensures value { result ≡ at + length (fitting out.old at (cond kept (both_children (unpack len prefix.now)) [])) }
{
    if !kept {
        return at;
    }
    let size = child_length(prefix, len);
    if !within(out.len(), at, size) {
        return at;
    }
    let second = at + size;
    if !within(out.len(), second, size) {
        return at;
    }
    write_child(prefix, len, false, out, at);
    write_child(prefix, len, true, out, second);
    second + size
}
