// The reports that a server is lent: their lengths, the checks of their public shares, and sums of its shares over them.
#![tactic(auto)]

mod checks;
mod reports;

pub use checks::{all_payloads_below, all_spare_bits_zero, wrong_lengths};
pub use reports::{Server, public_share_at};
