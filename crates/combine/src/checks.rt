// The causes of what is lent: 1, 2 or 12, 4, 6 and 9.
ghost use Rattle.std.specs.Prelude.{◌≡◌, not, ◌&&◌, ◌||◌, ◌*◌, length, eqb};
ghost use Rattle.calls.specs.Causes.{number_due};
ghost use Rattle.calls.specs.Refusals.{number_in};
ghost use Rattle.query.specs.Query.{prefix_count};
ghost use Rattle.shares.specs.ShareNumbers.{unmatched};
ghost use Rattle.combine.specs.Combine.{lent_causes};

use calls::Refusal;

// Whether the shares have the wrong length, where `passes` tells whether the query passes 9.
// `passes` stays a flag: a query that does not pass is judged after the shares.
fn wrong_shares(passes: bool, query: &[u8], share0: &[u8], share1: &[u8]) -> bool
    ensures { result ≡ (unmatched share0.now share1.now
        || (passes && not (eqb (length share0.now) (8 * prefix_count query.now)))) }
{
    shares::unmatched(share0, share1) || (passes && share0.len() != 8 * query::prefix_count(query))
}

// The first of these causes that applies.
pub(crate) fn check(
    n: u64,
    weighted: bool,
    t: u64,
    query: &[u8],
    share0: &[u8],
    share1: &[u8],
) -> Result<(), Refusal>
    ensures { number_in result ≡ number_due (lent_causes n weighted t query.now share0.now share1.now) }
{
    if calls::length_outside(n) {
        return Err(Refusal::StringLength);
    }
    if calls::threshold_outside(weighted, t) {
        return Err(calls::threshold_refusal(weighted));
    }
    let a_query = query::is_query(n, query);
    let below = shares::both_below(share0, share1);
    if wrong_shares(a_query, query, share0, share1) {
        return Err(Refusal::Lengths);
    }
    if !below {
        return Err(Refusal::PayloadTooLarge);
    }
    if !a_query {
        return Err(Refusal::Query);
    }
    Ok(())
}
