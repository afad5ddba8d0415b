//! Whether the rows of a database are those of a sound queue: each row is read once, and the first that isn't as it
//! has to be is told.
//!
//! What the rows mean is below, in `fax_tables`. Beside `fax_store` this crate alone speaks of SQL above that.
#![tactic(auto)]

mod checking;
mod holders;
pub mod laws;
mod pass;
mod reading;
mod rows;
mod tables;

pub use checking::check;
pub use holders::Holder;
pub use tables::{Flaw, Table};
