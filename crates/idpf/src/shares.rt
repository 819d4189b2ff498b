// The call `share`: a server's share for a query.
ghost use Rattle.std.specs.Prelude.{◌≡◌, true, ◌+◌, ◌*◌, ◌≤◌, ◌<◌, length, IfOk, Some};
ghost use Rattle.numbers.specs.Numbers.{little};
ghost use Rattle.places.specs.Places.{put_at, overlay};
ghost use Rattle.bits.specs.Packing.{bits_of};
ghost use Rattle.calls.specs.Causes.{number_due};
ghost use Rattle.calls.specs.Refusals.{number_in};
ghost use Rattle.calls.specs.Outcome.{answered};
ghost use Rattle.expander.specs.Expander.{choice_of};
ghost use Rattle.point.specs.Evaluation.{bit_of};
ghost use Rattle.query.specs.Query.{is_query, prefix_count};
ghost use Rattle.query.specs.Prefix.{packed_prefix};
ghost use Rattle.report_sums.specs.Reports.{all_count, server_sum};
ghost use Rattle.idpf.specs.Share.{share_causes, share_bytes, share_exit};

use calls::Refusal;
use expander::Expander;
use report_sums::{Server, all_payloads_below, all_spare_bits_zero, wrong_lengths};

// The expander that the number names, where no cause applies; else the first that does.
fn check(
    n: u64,
    expander: u64,
    seeds: &[u8],
    shares: &[u8],
    query: &[u8],
    room: usize,
) -> Result<Expander, Refusal>
    ensures number { number_in result ≡ number_due (share_causes n expander seeds.now shares.now query.now room) }
    ensures chosen { IfOk result (λ e. choice_of expander ≡ Some e) }
{
    if calls::length_outside(n) {
        return Err(Refusal::StringLength);
    }
    let e = Expander::try_from(expander)?;
    let levels = n as u16;
    if wrong_lengths(levels, seeds, shares) {
        return Err(Refusal::Lengths);
    }
    if calls::too_many_reports(seeds.len() / 16) {
        return Err(Refusal::TooManyReports);
    }
    let payloads = all_payloads_below(levels, seeds.len() / 16, shares);
    let spares = all_spare_bits_zero(levels, seeds.len() / 16, shares);
    if !payloads {
        return Err(Refusal::PayloadTooLarge);
    }
    if !spares {
        return Err(Refusal::SpareBits);
    }
    if !query::is_query(n, query) {
        return Err(Refusal::Query);
    }
    if room < 8 * query::prefix_count(query) {
        return Err(Refusal::NoSpace);
    }
    Ok(e)
}

// The sum at prefix i of the query, of k bits, into its 8 places.
fn write_sum(lent: Server<'_>, query: &[u8], k: u16, i: usize, out: &mut [u8])
    requires { i < 4294967296 }
    ensures { out.new ≡ put_at out.old (8 * i)
        (little 8 (server_sum lent.entry.expander lent.entry.n lent.entry.server lent.entry.seeds.now lent.entry.public_shares.now all_count (bit_of (bits_of (packed_prefix query.now i))) k)) }
{
    let prefix = query::prefix_at(query, i);
    numbers::write_le8(out, 8 * i, lent.sum(&[], prefix, k));
}

// The sums at prefixes i and i + 1 of the query, of k bits, into their 16 places.
fn write_sum_pair(lent: Server<'_>, query: &[u8], k: u16, i: usize, out: &mut [u8])
    requires { i < 4294967296 }
    ensures { out.new ≡ put_at (put_at out.old (8 * i)
        (little 8 (server_sum lent.entry.expander lent.entry.n lent.entry.server lent.entry.seeds.now lent.entry.public_shares.now all_count (bit_of (bits_of (packed_prefix query.now i))) k)))
        (8 * (i + 1))
        (little 8 (server_sum lent.entry.expander lent.entry.n lent.entry.server lent.entry.seeds.now lent.entry.public_shares.now all_count (bit_of (bits_of (packed_prefix query.now (i + 1)))) k)) }
{
    let next = i + 1;
    let first = query::prefix_at(query, i);
    let second = query::prefix_at(query, next);
    let sums = lent.sums(&[], first, second, k);
    numbers::write_le8(out, 8 * i, sums.0);
    numbers::write_le8(out, 8 * next, sums.1);
}

// The sums at all prefixes of the query, in order, two at a time.
fn write_sums(lent: Server<'_>, query: &[u8], out: &mut [u8])
    requires { (is_query lent.n query.now ≡ true) × (8 * prefix_count query.now ≤ length out.old) }
    ensures { out.new ≡ overlay (share_bytes lent.entry.n lent.entry.server lent.entry.seeds.now lent.entry.public_shares.now query.now lent.entry.expander) out.old }
{
    let k = query::prefix_length(query) as u16;
    let count = query::prefix_count(query);
    for j in 0..count / 2 {
        write_sum_pair(lent, query, k, 2 * j, out);
    }
    if count % 2 == 1 {
        write_sum(lent, query, k, count - 1, out);
    }
}

// Writes a server's share for a query: for each prefix in order the sum over all lent reports; refuses with 1, 3, 4, 5, 6, 7, 9 or 11.
// C lends these one by one.
pub fn share(
    n: u64,
    expander: u64,
    server: bool,
    seeds: &[u8],
    public_shares: &[u8],
    query: &[u8],
    out: &mut [u8],
) -> Result<u64, Refusal>
    ensures { answered result out.new ≡ share_exit n expander server seeds.now public_shares.now query.now
        out.old }
{
    let e = check(n, expander, seeds, public_shares, query, out.len())?;
    let lent = Server {
        expander: e,
        n: n as u16,
        server,
        seeds,
        public_shares,
    };
    write_sums(lent, query, out);
    Ok(8 * query::prefix_count(query) as u64)
}
