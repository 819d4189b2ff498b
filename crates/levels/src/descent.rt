// The levels of a search, from one query down.
ghost use Rattle.std.specs.Prelude.{◌≡◌, ◌&&◌, ◌+◌, ◌-◌, ◌*◌, ◌%◌, ◌≤◌, ◌<◌, length, drop, leb};
ghost use Rattle.bits.specs.Packing.{packed_length};
ghost use Rattle.kept.specs.Kept.{reaches_by};
ghost use Rattle.query.proofs.Pieces.{strings_at};
ghost use Rattle.query.specs.Query.{packs, parts};
ghost use Rattle.calls.specs.Refusals.{number_in};
ghost use Rattle.levels.specs.Levels.{total_in, record_in, list_in};
ghost use Rattle.levels.specs.LevelRead.{reaching_in};
ghost use Rattle.tree.proofs.Levels.{Packed, Listed, AnsweredBelow};

use crate::children::write_next;
use crate::heavy::write_list;
use crate::{Lengths, Level, Search};
use bits::packed_length;
use calls::Refusal;
use kept::Rule;

// Whether the children of `kept` prefixes of k bits are within the limit, and their query and totals fit into `room` places from `end` on.
fn next_fits(room: usize, end: usize, k: usize, kept: usize) -> bool
    requires { k ≤ 256 }
    ensures { result ≡ (leb kept 65535 && leb (end + (6 + 2 * kept * (packed_length (k + 1) + 8))) room) }
{
    if 65535 < kept {
        return false;
    }
    let need = 6 + 2 * kept * (packed_length(k + 1) + 8);
    need <= room && end <= room - need
}

// The end of a search at a level whose totals are written: the `kept` of its prefixes that are kept are the list, if it fits.
fn finish(
    rule: Rule,
    area: &[u8],
    list: &mut [u8],
    level: Level,
    kept: usize,
) -> Result<Lengths, Refusal>
    requires in_bounds { (level.from + level.count * packed_length level.k ≤ length area.now) × (level.place + 8 * level.count ≤ length area.now)
        × (kept ≤ level.count) }
    requires packed { Packed level.k (parts (packed_length level.k) level.count (drop level.from area.now)) }
    requires kept_value { kept * packed_length level.k ≡ length (packs (reaching_in rule level area.now)) }
    ensures { Listed (packs (reaching_in rule level area.now)) list.old list.new (level.place + 8 * level.count)
        (number_in result) (record_in result) (list_in result) }
{
    let size = kept * packed_length(level.k as usize);
    if list.len() < size {
        return Err(Refusal::NoSpace);
    }
    write_list(rule, area, level, list);
    Ok(Lengths {
        record: (level.place + 8 * level.count) as u64,
        list: size as u64,
    })
}

impl Search<'_> {
    // The search from its query for `count` prefixes of k bits on, which stand from place `from` on: their totals, and then the list, the end, or the
    // next query and the search from there.
    pub(crate) fn descend(
        &self,
        area: &mut [u8],
        list: &mut [u8],
        k: u16,
        count: usize,
        from: usize,
    ) -> Result<Lengths, Refusal>
        requires k_le_n { (k ≤ self.now.last + 1) × (from + count * packed_length k + 8 * count ≤ length area.old) × (count % 2 ≡ 0) }
        requires packed { Packed k (parts (packed_length k) count (drop from area.old)) }
        ensures { AnsweredBelow (reaches_by self.now.rule) (total_in self.now)
            (self.now.last + 1 - k) k (strings_at k count from area.old) (from + count * packed_length k) area.old list.old area.new
            list.new (number_in result) (record_in result) (list_in result) }
    {
        let place = from + count * packed_length(k as usize);
        let level = Level {
            k,
            count,
            from,
            place,
        };
        let kept = self.write_totals(area, level);
        if k == self.n() {
            return finish(self.rule, area, list, level, kept);
        }
        let end = place + 8 * count;
        if kept == 0 {
            return Ok(Lengths {
                record: end as u64,
                list: 0,
            });
        }
        if !next_fits(area.len(), end, k as usize, kept) {
            return Err(Refusal::NoSpace);
        }
        write_next(self.rule, area, level, end, kept);
        self.descend(area, list, k + 1, 2 * kept, end + 6)
    }
}
