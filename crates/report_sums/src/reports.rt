// The reports that a server is lent, and its sums over those that count at two prefixes or at one.
ghost use Rattle.std.specs.Prelude.{◌≡◌, ◌/◌, ◌<◌, min, length};
ghost use Rattle.point.specs.PublicShare.{public_share_length};
ghost use Rattle.bits.specs.Packing.{bits_of};
ghost use Rattle.point.specs.Evaluation.{bit_of};
ghost use Rattle.report_sums.specs.Reports.{report_count, public_share_at, counts, lent_share, server_sum};

use expander::Expander;
use nodes::public_share_length;
use walk::ServerKey;

// What a server is lent: the expander, the number n of levels, which server it is, and the seeds and public shares of its reports.
#[derive(Clone, Copy)]
pub struct Server<'a> {
    pub expander: Expander,
    pub n: u16,
    pub server: bool,
    pub seeds: &'a [u8],
    pub public_shares: &'a [u8],
}

// How many reports are lent with so many seeds: as many as have their seed and their public share in full.
// That no length divides by zero stands in `share_count` of `node_lists`, too: that one is published, and this is none of its callers.
fn report_count(n: u16, seed_count: usize, shares: &[u8]) -> usize
    ensures { result ≡ min seed_count (length shares.now / public_share_length n) }
{
    let share_count = shares
        .len()
        .checked_div(public_share_length(n))
        .unwrap_or(0);
    seed_count.min(share_count)
}

// The public share of report i, as far as it is lent.
pub fn public_share_at(n: u16, shares: &[u8], i: usize) -> &[u8]
    ensures { result.now ≡ public_share_at n shares.now i }
{
    let length = public_share_length(n);
    let start = length.saturating_mul(i).min(shares.len());
    let rest = &shares[start..];
    &rest[..length.min(rest.len())]
}

// Whether report i counts: its mark is zero, or there is none.
fn counts(marks: &[u8], i: usize) -> bool
    ensures { result ≡ counts marks.now i }
{
    places::byte_at(marks, i) == 0
}

impl Server<'_> {
    // The server's shares of report i, which is lent, at the first k bits of two packed prefixes.
    fn lent_shares(self, first: &[u8], second: &[u8], k: u16, i: usize) -> (u64, u64)
        requires { i < report_count self.n self.seeds.now self.public_shares.now }
        ensures first_value { result.0 ≡ lent_share self.entry.expander self.entry.n self.entry.server self.entry.seeds.now self.entry.public_shares.now (bit_of (bits_of first.now)) k i }
        ensures second_value { result.1 ≡ lent_share self.entry.expander self.entry.n self.entry.server self.entry.seeds.now self.entry.public_shares.now (bit_of (bits_of second.now)) k i }
    {
        let length = public_share_length(self.n);
        let start = length * i;
        let end = start + length;
        let key = ServerKey {
            expander: self.expander,
            n: self.n,
            server: self.server,
            seed: places::read16(self.seeds, 16 * i),
            public_share: &self.public_shares[start..end],
        };
        key.shares_at(first, second, k)
    }

    // The server's sums over the lent reports that count, at the first k bits of two packed prefixes.
    // The marks stay bytes: the definition `counts` is over bytes.
    pub fn sums(self, marks: &[u8], first: &[u8], second: &[u8], k: u16) -> (u64, u64)
        ensures first_value { result.0
            ≡ server_sum self.entry.expander self.entry.n self.entry.server self.entry.seeds.now self.entry.public_shares.now (counts marks.now) (bit_of (bits_of first.now)) k }
        ensures second_value { result.1
            ≡ server_sum self.entry.expander self.entry.n self.entry.server self.entry.seeds.now self.entry.public_shares.now (counts marks.now) (bit_of (bits_of second.now)) k }
    {
        let count = report_count(self.n, self.seeds.len() / 16, self.public_shares);
        let mut sums = (0, 0);
        for i in 0..count {
            if counts(marks, i) {
                let lent = self.lent_shares(first, second, k, i);
                sums = (group::add(sums.0, lent.0), group::add(sums.1, lent.1));
            }
        }
        sums
    }

    // The server's sum over the lent reports that count, at the first k bits of a packed prefix.
    pub fn sum(self, marks: &[u8], prefix: &[u8], k: u16) -> u64
        ensures { result ≡ server_sum self.entry.expander self.entry.n self.entry.server self.entry.seeds.now self.entry.public_shares.now (counts marks.now) (bit_of (bits_of prefix.now)) k }
    {
        self.sums(marks, prefix, prefix, k).0
    }
}
