// The tests of causes 4, 6 and 7 on the reports that a server is lent.
ghost use Rattle.std.specs.Prelude.{◌≡◌, not, ◌/◌, min, length};
ghost use Rattle.point.specs.PublicShare.{public_share_length};
ghost use Rattle.report_sums.specs.Checks.{wrong_lengths, payload_too_large, spare_bits_set};

use nodes::public_share_length;

// Whether all payload corrections of these public shares are below p.
// It and `all_spare_bits_zero` differ in the test alone: a function that is lent the test would have to say in its clause what that promises.
pub fn all_payloads_below(n: u16, reports: usize, shares: &[u8]) -> bool
    ensures { result ≡ not (payload_too_large n (min reports (length shares.now / public_share_length n)) shares.now) }
{
    let size = public_share_length(n);
    size == 0
        || shares
            .chunks_exact(size)
            .take(reports)
            .all(|share| walk::payloads_below(n, share))
}

// Whether the spare bits of these public shares are zero.
pub fn all_spare_bits_zero(n: u16, reports: usize, shares: &[u8]) -> bool
    ensures { result ≡ not (spare_bits_set n (min reports (length shares.now / public_share_length n)) shares.now) }
{
    let size = public_share_length(n);
    size == 0
        || shares
            .chunks_exact(size)
            .take(reports)
            .all(|share| walk::spare_bits_zero(n, share))
}

// Whether the seeds or the public shares have the wrong length, or disagree in count.
// Seeds and public shares stay beside each other: C lends them so, and before they are judged they belong to no server.
pub fn wrong_lengths(n: u16, seeds: &[u8], shares: &[u8]) -> bool
    ensures { result ≡ wrong_lengths n seeds.now shares.now }
{
    let size = public_share_length(n);
    if size == 0 {
        return seeds.len() % 16 != 0 || shares.len() != 0 || seeds.len() / 16 != 0;
    }
    seeds.len() % 16 != 0 || shares.len() % size != 0 || seeds.len() / 16 != shares.len() / size
}
