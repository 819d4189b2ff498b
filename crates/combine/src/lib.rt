// Combining two servers' shares for a query: the next query, the list, or the end of the search.
#![tactic(auto)]

ghost use Rattle.std.specs.Prelude.{◌≡◌};
ghost use Rattle.combine.specs.Combine.{combine_exit, told};

use crate::checks::check;
use crate::totals::Round;
use bits::packed_length;
use calls::Refusal;
use kept::Rule;

mod checks;
mod totals;
mod writing;

// What combining answers: the next query or the list, with its length in bytes; or the end of the search.
#[derive(Clone, Copy, Debug, PartialEq, Eq)]
pub enum Combined {
    Next(u64),
    List(u64),
    Ended,
}

// Writes the next query, or at length n the list, for the prefixes whose total, read as a signed number where the
// search is weighted, is at least t; refuses with 1, 2, 4, 6, 9 or 11, and with 12 in the place of 2 where it is weighted.
// C lends these one by one.
pub fn combine(
    n: u64,
    weighted: bool,
    t: u64,
    query: &[u8],
    share0: &[u8],
    share1: &[u8],
    out: &mut [u8],
) -> Result<Combined, Refusal>
    ensures { told result out.new ≡ combine_exit n weighted t query.now share0.now share1.now out.old }
{
    check(n, weighted, t, query, share0, share1)?;
    let round = Round {
        rule: Rule { t, weighted },
        query,
        share0,
        share1,
    };
    let len = query::prefix_length(query);
    let longer = len + 1;
    let kept = round.count_kept();
    if len as u64 == n {
        let list_size = kept * packed_length(len);
        if out.len() < list_size {
            return Err(Refusal::NoSpace);
        }
        round.write_kept(true, out, 0);
        return Ok(Combined::List(list_size as u64));
    }
    if kept < 1 {
        return Ok(Combined::Ended);
    }
    if 65535 < kept {
        return Err(Refusal::NoSpace);
    }
    let next_size = 6 + 2 * kept * packed_length(longer);
    if out.len() < next_size {
        return Err(Refusal::NoSpace);
    }
    query::write_fields(out, 0, len as u64, 2 * kept as u64);
    round.write_kept(false, out, 6);
    Ok(Combined::Next(next_size as u64))
}
