// The kept prefixes of a query, or their children, one after the other.
ghost use Rattle.std.specs.Prelude.{ℕ, ◌≡◌, true, cond, [], ◌+◌, ◌*◌, ◌≤◌, ◌<◌, length, get_or};
ghost use Rattle.bits.specs.Packing.{packed_length};
ghost use Rattle.places.specs.Places.{put_at};
ghost use Rattle.query.specs.Query.{packs, prefix_length, prefix_count, packed_prefixes, spares_zero};
ghost use Rattle.query.specs.Prefix.{part};
ghost use Rattle.query.specs.Written.{fitting};
ghost use Rattle.kept.proofs.Onward.{onward, onward_bytes};
ghost use Rattle.kept.specs.Kept.{reaches_by};
ghost use Rattle.combine.specs.Combine.{passing};

use crate::totals::Round;
use bits::packed_length;
use query::{prefix_count, prefix_length, write_both_children, write_prefix};

// The packed prefix of len bits in the w bytes from place `from` on, where `last`, and else both its children, into the places from `at` on if it is
// kept; and the place after what is written.
// `last` stays a flag: the contract's `onward_bytes` is defined by it, and a closure would take the seven other arguments.
fn write_one(
    last: bool,
    kept: bool,
    q: &[u8],
    from: usize,
    w: usize,
    len: usize,
    out: &mut [u8],
    at: usize,
) -> usize
    requires { from + w ≤ length q.now }
    ensures out_after { out.new ≡ put_at out.old at (cond kept (onward_bytes last len (part w from q.now)) []) }
    ensures value { result ≡ at + length (fitting out.old at (cond kept (onward_bytes last len (part w from q.now)) [])) }
{
    if last {
        return write_prefix(kept, q, from, w, out, at);
    }
    let end = from + w;
    write_both_children(kept, &q[from..end], len, out, at)
}

impl Round<'_> {
    // Writes the kept prefixes of the query where `last`, and else both children of each, from place `at` of `out` on.
    // The place is handed on to `write_one` and moves on with each prefix.
    pub(crate) fn write_kept(self, last: bool, out: &mut [u8], at: usize)
        requires query_in_bounds { 6 + prefix_count self.query.now * packed_length (prefix_length self.query.now) ≤ length self.query.now }
        requires query_bytes { (j : ℕ) → get_or self.query.now j 0 < 256 }
        requires spares { spares_zero (prefix_length self.query.now) (packed_prefixes self.query.now) ≡ true }
        requires share_lengths { (length self.share0.now ≡ 8 * prefix_count self.query.now) × (length self.share1.now ≡ 8 * prefix_count self.query.now) }
        requires out_in_bounds { at + length (packs (onward last (passing (reaches_by self.rule) self.query.now self.share0.now self.share1.now))) ≤ length out.old }
        ensures { out.new ≡ put_at out.old at
            (packs (onward last (passing (reaches_by self.entry.rule) self.entry.query.now self.entry.share0.now self.entry.share1.now))) }
    {
        let q = self.query;
        let len = prefix_length(q);
        let w = packed_length(len);
        let count = prefix_count(q);
        let mut here = at;
        for i in 0..count {
            here = write_one(last, self.is_kept(i), q, 6 + i * w, w, len, out, here);
        }
    }
}
