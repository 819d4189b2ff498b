// What several calls share: the bounds of what they are lent, and what a call that writes into one lent space returns.
#![tactic(auto)]

ghost use Rattle.std.specs.Prelude.{◌≡◌, ℕ, List, ltb};
ghost use Rattle.calls.specs.Bounds.{most_bits, threshold_most, threshold_number, most_reports, outside};
ghost use Rattle.calls.specs.Refusals.{number_of};
ghost use Rattle.calls.specs.Outcome.{left, answered};
ghost use Rattle.calls.specs.declared.Refusal.TheVariants.{Expander};

use expander::UnknownExpander;
use std::error::Error;
use std::fmt;

// Why a call refuses: the causes of document 01, and those that document 02 adds, in the order of their numbers.
#[derive(Clone, Copy, Debug, PartialEq, Eq, Hash)]
pub enum Refusal {
    StringLength,
    Threshold,
    Expander,
    Lengths,
    TooManyReports,
    PayloadTooLarge,
    SpareBits,
    SharesDiffer,
    Query,
    Text,
    NoSpace,
    WeightedThreshold,
    Nodes,
    NoParent,
}

impl Refusal {
    // The number of a refusal.
    pub fn number(self) -> u64
        ensures { result ≡ number_of self }
    {
        match self {
            Refusal::StringLength => 1,
            Refusal::Threshold => 2,
            Refusal::Expander => 3,
            Refusal::Lengths => 4,
            Refusal::TooManyReports => 5,
            Refusal::PayloadTooLarge => 6,
            Refusal::SpareBits => 7,
            Refusal::SharesDiffer => 8,
            Refusal::Query => 9,
            Refusal::Text => 10,
            Refusal::NoSpace => 11,
            Refusal::WeightedThreshold => 12,
            Refusal::Nodes => 13,
            Refusal::NoParent => 14,
        }
    }
}

impl fmt::Display for Refusal {
    fn fmt<W: fmt::Write>(&self, f: &mut fmt::Formatter<W>) -> fmt::Result {
        write!(f, "refused {}", self.number())
    }
}

impl Error for Refusal {}

impl From<UnknownExpander> for Refusal {
    ghost from_gives = { λ _ refusal. refusal ≡ Expander };

    fn from(_: UnknownExpander) -> Refusal {
        Self::Expander
    }
}

// What C is told: the number of the refusal, or 0; and how many bytes were written.
// A number and a length beside each other: C reads it so.
#[repr(C)]
#[derive(Clone, Copy)]
pub struct Reply {
    pub number: u64,
    pub length: u64,
}

impl From<Result<u64, Refusal>> for Reply {
    ghost from_gives = { λ answer reply. (area : List ℕ) → left reply area ≡ answered answer area };

    fn from(answer: Result<u64, Refusal>) -> Reply {
        match answer {
            Ok(length) => Reply { number: 0, length },
            Err(refusal) => Reply {
                number: refusal.number(),
                length: 0,
            },
        }
    }
}

// Whether x is outside the bounds from 1 to `most`.
fn outside(most: u64, x: u64) -> bool
    ensures { result ≡ outside most x }
{
    x < 1 || most < x
}

// Whether the string length n is outside its bounds.
pub fn length_outside(n: u64) -> bool
    ensures { result ≡ outside most_bits n }
{
    outside(256, n)
}

// Whether the threshold t of a search that is weighted or not is outside its bounds.
// `weighted` stays a flag, here and in all that is handed it: C lends it, and `threshold_most` is defined by it.
pub fn threshold_outside(weighted: bool, t: u64) -> bool
    ensures { result ≡ outside (threshold_most weighted) t }
{
    if weighted {
        return outside(2147483647, t);
    }
    outside(65535, t)
}

// What refuses such a threshold: 2, or 12 where the search is weighted.
pub fn threshold_refusal(weighted: bool) -> Refusal
    ensures { number_of result ≡ threshold_number weighted }
{
    match weighted {
        true => Refusal::WeightedThreshold,
        false => Refusal::Threshold,
    }
}

// Whether there are more reports than a call takes.
pub fn too_many_reports(reports: usize) -> bool
    ensures { result ≡ ltb most_reports reports }
{
    65535 < reports
}
