//! The nine tables of the fax queue in a database of `sqlite`: what they are, which databases have them, and the
//! statements on them.
//!
//! What the rows mean is above, in `fax_tables`, and what runs the statements in `fax_store`.
#![tactic(auto)]

mod shape;
pub mod statements;
mod versions;
mod way;

pub use versions::{has_floors, has_times};
pub use way::{Step, UPGRADES, Way, way_of};
