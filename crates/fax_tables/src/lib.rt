//! What the nine tables of the fax queue mean: how they are made, and how each record stands in its row.
//!
//! What reads and writes the rows is above, in `fax_store`.
#![tactic(auto)]

mod fault;
mod floors;
mod grants;
mod jobs;
mod meta;
mod prospect;
mod replies;
mod row;
mod schema;
mod times;

pub use fault::{StoreFault, insert_fault};
pub use floors::{floor_in, floor_value};
pub use grants::{
    Hold, call_at, call_number, calls_in, grant_in, held_job_in, holders_in, is_open_grant,
};
pub use jobs::{
    brief_in, briefs_in, dial_at, dial_in, is_over_phase, job_in, killtime_number, phase_number,
    spelling, wish_number,
};
pub use meta::{Meta, is_version};
pub use prospect::{Prospect, prospect_in};
pub use replies::{Kept, is_kept_status, number_value};
pub use row::{name_at, number_at, small_at, text_at, value_at};
pub use schema::{create_tables, renew_tables};
pub use times::{numbers_in, times_in};
