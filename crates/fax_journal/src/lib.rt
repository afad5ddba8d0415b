//! The journal of a client, in a database of `sqlite`: its name, the last request number that it used, the request that
//! isn't answered yet, and the grant that it holds. Beside it are the answers that are remembered under keys.
#![tactic(auto)]

mod columns;
mod entry;
mod journal;
pub mod laws;
mod reading;
mod shape;
mod statements;

pub use entry::{Entry, Request};
pub use fax_tables::StoreFault;
pub use journal::Journal;
