// The levels of a search: the number of reports, and each query with its totals, into the record area, which is the only workspace; and the list.
#![tactic(auto)]

mod children;
mod descent;
mod heavy;
mod sums;
mod whole;

ghost use Rattle.std.specs.Prelude.{◌≡◌, ◌+◌};
ghost use Rattle.levels.specs.Levels.{ended, ending};

use calls::Refusal;
use expander::Expander;
use kept::Rule;

// How many bytes were written of the record and of the list.
#[derive(Clone, Copy, Debug, PartialEq, Eq)]
pub struct Lengths {
    pub record: u64,
    pub list: u64,
}

// What a search is lent: its expander, its levels, from the first, 0, to `last`, for strings of last + 1 bits, the rule by which a prefix is kept, and
// each server's root seeds and public shares.
#[derive(Clone, Copy)]
pub struct Search<'a> {
    pub expander: Expander,
    pub last: u8,
    pub rule: Rule,
    pub seeds0: &'a [u8],
    pub shares0: &'a [u8],
    pub seeds1: &'a [u8],
    pub shares1: &'a [u8],
}

// A level: `count` prefixes of k bits, which stand in the record area from place `from` on, and their totals from `place` on.
#[derive(Clone, Copy)]
struct Level {
    k: u16,
    count: usize,
    from: usize,
    place: usize,
}

impl Search<'_> {
    // How many bits the strings have.
    fn n(self) -> u16
        ensures { result ≡ self.entry.last + 1 }
    {
        self.last as u16 + 1
    }

    // Writes the number of reports and searches level by level; where there is no room, the area becomes zero.
    pub fn run(self, area: &mut [u8], list: &mut [u8]) -> Result<Lengths, Refusal>
        ensures { ended result area.new list.new ≡ ending self.entry.rule self.entry.expander (self.entry.last + 1)
            self.entry.seeds0.now self.entry.shares0.now self.entry.seeds1.now self.entry.shares1.now area.old list.old }
    {
        let found = self.all_levels(area, list);
        if found.is_err() {
            area.fill(0);
        }
        found
    }
}
