// The servers' side of the incremental distributed point function: a server's share for a query.
#![tactic(auto)]

mod shares;

pub use shares::share;
