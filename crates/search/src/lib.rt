// The whole search: its causes of refusal, and then its levels.
#![tactic(auto)]

mod checks;

ghost use Rattle.std.specs.Prelude.{◌≡◌, ℕ, List};
ghost use Rattle.levels.specs.Levels.{ended};
ghost use Rattle.search.specs.Search.{lent, search_ending, returned};

use crate::checks::check;
use calls::Refusal;
use kept::Rule;
use levels::{Lengths, Search};

// What C is told: the number of the cause that refused it, or 0; and how many bytes were written of the record and of the list.
// Numbers and a length beside each other: C reads it so.
#[repr(C)]
#[derive(Clone, Copy)]
pub struct Found {
    pub number: u64,
    pub record_length: u64,
    pub list_length: u64,
}

impl From<Result<Lengths, Refusal>> for Found {
    ghost from_gives = { λ answer found. (record_area list_area : List ℕ) → returned found record_area list_area ≡ ended answer record_area list_area };

    fn from(answer: Result<Lengths, Refusal>) -> Found {
        match answer {
            Ok(lengths) => Found {
                number: 0,
                record_length: lengths.record,
                list_length: lengths.list,
            },
            Err(refusal) => Found {
                number: refusal.number(),
                record_length: 0,
                list_length: 0,
            },
        }
    }
}

// Searches: writes the record, the number of reports and then each query followed by its totals; and the list of the kept strings of n bits; refuses
// with 1 to 8, with 12 in the place of 2 where the search is weighted, or with 11, when the record area becomes zero.
// C lends these one by one.
pub fn search(
    n: u64,
    weighted: bool,
    t: u64,
    expander: u64,
    seeds0: &[u8],
    public_shares0: &[u8],
    seeds1: &[u8],
    public_shares1: &[u8],
    record: &mut [u8],
    list: &mut [u8],
) -> Result<Lengths, Refusal>
    ensures { ended result «record».new list.new ≡ search_ending (lent n weighted t expander seeds0.now
        public_shares0.now
        seeds1.now public_shares1.now «record».old list.old) }
{
    let e = check(
        n,
        weighted,
        t,
        expander,
        seeds0,
        public_shares0,
        seeds1,
        public_shares1,
    )?;
    let levels = Search {
        expander: e,
        last: (n - 1) as u8,
        rule: Rule { t, weighted },
        seeds0,
        shares0: public_shares0,
        seeds1,
        shares1: public_shares1,
    };
    levels.run(record, list)
}
