//! Tables and indexes of a database of `sqlite`, whatever they are for: which layout a database has. The proofs here say
//! what one statement on one table does.
#![tactic(auto)]

mod recognize;
mod shape;

pub use recognize::{has_layout, has_no_tables};
pub use shape::{IndexShape, Layout, Part, Shape};
