// A server's walk down the levels of one public share, which is read in place: its correction words, its shares at two prefixes, one step down from a kept node, and the tests of causes 6 and 7.
#![tactic(auto)]

mod checks;
mod down;
mod pairs;
mod reader;
mod steps;

pub use checks::{payloads_below, spare_bits_zero};
pub use down::step_down;
pub use pairs::ServerKey;
pub use reader::read_correction;
