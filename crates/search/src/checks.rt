// The causes of what is lent: 1 to 8, and 12 in the place of 2.
ghost use Rattle.std.specs.Prelude.{◌≡◌, not, ◌||◌, [], length, eqb, IfOk, Some};
ghost use Rattle.calls.specs.Causes.{number_due};
ghost use Rattle.calls.specs.Refusals.{number_in};
ghost use Rattle.expander.specs.Expander.{choice_of};
ghost use Rattle.report_sums.specs.Reports.{report_count};
ghost use Rattle.report_sums.specs.Checks.{wrong_lengths, payload_too_large, spare_bits_set};
ghost use Rattle.search.specs.Search.{lent, settings_causes, amount_causes, public_share_causes, lent_causes};

use calls::Refusal;
use expander::Expander;

// The string length, and the root seeds and the public shares of each server.
#[derive(Clone, Copy)]
struct Reports<'a> {
    n: u16,
    seeds0: &'a [u8],
    shares0: &'a [u8],
    seeds1: &'a [u8],
    shares1: &'a [u8],
}

impl Reports<'_> {
    // Whether what is lent for either server has the wrong length, or the servers' seeds differ in count.
    fn lengths_wrong(self) -> bool
        ensures { result ≡ (wrong_lengths self.entry.n self.entry.seeds0.now self.entry.shares0.now
            || (wrong_lengths self.entry.n self.entry.seeds1.now self.entry.shares1.now
            || not (eqb (length self.entry.seeds0.now) (length self.entry.seeds1.now)))) }
    {
        report_sums::wrong_lengths(self.n, self.seeds0, self.shares0)
            || report_sums::wrong_lengths(self.n, self.seeds1, self.shares1)
            || self.seeds0.len() != self.seeds1.len()
    }

    // Whether a payload correction lent for either server is p or more.
    // It and `spare_bits_set` differ in the test alone, as the two functions of `report_sums` do.
    fn payload_too_large(self) -> bool
        ensures { result ≡ (payload_too_large self.entry.n (report_count self.entry.n self.entry.seeds0.now self.entry.shares0.now) self.entry.shares0.now
            || payload_too_large self.entry.n (report_count self.entry.n self.entry.seeds1.now self.entry.shares1.now) self.entry.shares1.now) }
    {
        !report_sums::all_payloads_below(self.n, self.seeds0.len() / 16, self.shares0)
            || !report_sums::all_payloads_below(self.n, self.seeds1.len() / 16, self.shares1)
    }

    // Whether spare bits of a public share lent for either server are set.
    fn spare_bits_set(self) -> bool
        ensures { result ≡ (spare_bits_set self.entry.n (report_count self.entry.n self.entry.seeds0.now self.entry.shares0.now) self.entry.shares0.now
            || spare_bits_set self.entry.n (report_count self.entry.n self.entry.seeds1.now self.entry.shares1.now) self.entry.shares1.now) }
    {
        !report_sums::all_spare_bits_zero(self.n, self.seeds0.len() / 16, self.shares0)
            || !report_sums::all_spare_bits_zero(self.n, self.seeds1.len() / 16, self.shares1)
    }

    // The first cause of how much is lent that applies.
    fn check_amount(self) -> Result<(), Refusal>
        ensures { number_in result ≡ number_due (amount_causes self.entry.n self.entry.seeds0.now self.entry.shares0.now self.entry.seeds1.now self.entry.shares1.now) }
    {
        if self.lengths_wrong() {
            return Err(Refusal::Lengths);
        }
        if calls::too_many_reports(self.seeds0.len() / 16) {
            return Err(Refusal::TooManyReports);
        }
        Ok(())
    }

    // The first cause of the public shares that applies.
    fn check_public_shares(self) -> Result<(), Refusal>
        ensures { number_in result ≡ number_due (public_share_causes self.entry.n self.entry.seeds0.now self.entry.shares0.now self.entry.seeds1.now self.entry.shares1.now) }
    {
        let large = self.payload_too_large();
        let spare = self.spare_bits_set();
        let same = self.shares0 == self.shares1;
        if large {
            return Err(Refusal::PayloadTooLarge);
        }
        if spare {
            return Err(Refusal::SpareBits);
        }
        if !same {
            return Err(Refusal::SharesDiffer);
        }
        Ok(())
    }
}

// The first cause of the settings that applies; or the expander.
fn check_settings(n: u64, weighted: bool, t: u64, expander: u64) -> Result<Expander, Refusal>
    ensures number { number_in result ≡ number_due (settings_causes n weighted t expander) }
    ensures chosen { IfOk result (λ e. choice_of expander ≡ Some e) }
{
    if calls::length_outside(n) {
        return Err(Refusal::StringLength);
    }
    if calls::threshold_outside(weighted, t) {
        return Err(calls::threshold_refusal(weighted));
    }
    let e = Expander::try_from(expander)?;
    Ok(e)
}

// The first cause of what is lent that applies; or the expander.
// C lends these one by one.
pub(crate) fn check(
    n: u64,
    weighted: bool,
    t: u64,
    expander: u64,
    seeds0: &[u8],
    shares0: &[u8],
    seeds1: &[u8],
    shares1: &[u8],
) -> Result<Expander, Refusal>
    ensures number { number_in result ≡ number_due (lent_causes (lent n weighted t expander seeds0.now shares0.now seeds1.now shares1.now
        [] [])) }
    ensures chosen { IfOk result (λ e. choice_of expander ≡ Some e) }
{
    let e = check_settings(n, weighted, t, expander)?;
    let reports = Reports {
        n: n as u16,
        seeds0,
        shares0,
        seeds1,
        shares1,
    };
    reports.check_amount()?;
    reports.check_public_shares()?;
    Ok(e)
}
