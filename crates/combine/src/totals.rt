// Totals, and which prefixes are kept.
ghost use Rattle.std.specs.Prelude.{◌≡◌, ◌*◌, ◌≤◌, length};
ghost use Rattle.places.specs.Lists.{how_many};
ghost use Rattle.kept.specs.Kept.{reaches_by};
ghost use Rattle.shares.proofs.Numbers.{added_at};
ghost use Rattle.combine.specs.Combine.{share_totals};

use kept::Rule;

// A query with two servers' shares for it, and the rule by which a prefix is kept.
#[derive(Clone, Copy)]
pub(crate) struct Round<'a> {
    pub(crate) rule: Rule,
    pub(crate) query: &'a [u8],
    pub(crate) share0: &'a [u8],
    pub(crate) share1: &'a [u8],
}

impl Round<'_> {
    // Whether prefix i of the query is kept.
    pub(crate) fn is_kept(self, i: usize) -> bool
        requires { 8 * i ≤ length self.share0.now }
        ensures { result ≡ reaches_by self.entry.rule (added_at self.entry.share0.now self.entry.share1.now (8 * i)) }
    {
        kept::reaches(self.rule, shares::sum_at(self.share0, self.share1, 8 * i))
    }

    // How many prefixes are kept.
    pub(crate) fn count_kept(self) -> usize
        requires { length self.share0.now ≡ length self.share1.now }
        ensures { (result ≡ how_many (reaches_by self.entry.rule) (share_totals self.entry.share0.now self.entry.share1.now))
            × (8 * result ≤ length self.entry.share0.now) }
    {
        let mut count = 0;
        for i in 0..self.share0.len() / 8 {
            if self.is_kept(i) {
                count += 1;
            }
        }
        count
    }
}
