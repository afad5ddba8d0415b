//! The calls on the tables of the fax queue.
//!
//! A [`Store`] reads them, and a [`Work`] changes them, all of its changes together or none.
//! Nothing above this crate speaks of SQL.
#![tactic(auto, using(crate::proofs::TextLemmas::texts))]

mod adopt;
mod candidates;
mod floors;
mod grants;
mod jobs;
pub mod laws;
mod meta;
mod modems;
mod purge;
mod replies;
mod shut;
mod store;
mod times;
mod work;

pub use candidates::Candidates;
pub use fax_tables::{Hold, Kept, Meta, StoreFault};
pub use store::{MemoryStore, Store};
pub use work::Work;
