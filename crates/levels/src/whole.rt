// All levels of a search, from the number of reports and the first query on.
ghost use Rattle.std.specs.Prelude.{◌≡◌, ◌+◌, ◌/◌, length};
ghost use Rattle.places.specs.Places.{put_at};
ghost use Rattle.kept.specs.Kept.{reaches_by};
ghost use Rattle.query.specs.Query.{query, children};
ghost use Rattle.tree.specs.SearchRule.{start, heading, heading_length};
ghost use Rattle.levels.specs.Levels.{total_in, record_in, list_in};
ghost use Rattle.calls.specs.Refusals.{number_in};
ghost use Rattle.tree.proofs.Levels.{AnsweredAll};

use crate::{Lengths, Search};
use calls::Refusal;
use numbers::write_be8;
use places::copy;
use tree::HEADING_LENGTH;

// How many bytes the first query takes with its two totals.
const FIRST_LEVEL: usize = 24;

// Writes the number of reports, with which a record begins, and gives back the place behind it.
fn write_heading(area: &mut [u8], reports: u64) -> usize
    ensures value { result ≡ heading_length }
    ensures area_after { area.new ≡ put_at area.old 0 (heading reports) }
{
    write_be8(area, 0, reports);
    HEADING_LENGTH
}

// Writes the first query, `0` and `1`, from place `at` on.
// The place stays beside the area, as in all that is written there.
fn write_first(area: &mut [u8], at: usize)
    ensures { area.new ≡ put_at area.old at (query 0 (children start)) }
{
    let first = [0u8, 0, 0, 0, 0, 2, 0, 128];
    copy(&first, area, at);
}

impl Search<'_> {
    // The levels of a search: the number of reports and the first query, where they and its two totals fit, and the levels from it down.
    pub(crate) fn all_levels(&self, area: &mut [u8], list: &mut [u8]) -> Result<Lengths, Refusal>
        ensures { AnsweredAll (reaches_by self.now.rule) (total_in self.now) (length self.now.seeds0.now / 16) (self.now.last + 1)
            area.old list.old area.new list.new (number_in result) (record_in result) (list_in result) }
    {
        if area.len() < HEADING_LENGTH + FIRST_LEVEL {
            return Err(Refusal::NoSpace);
        }
        let at = write_heading(area, (self.seeds0.len() / 16) as u64);
        write_first(area, at);
        self.descend(area, list, 1, 2, at + 6)
    }
}
