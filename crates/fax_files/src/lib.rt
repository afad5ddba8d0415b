//! The files that a command names: setup, controls, the queue's database, and the jobs of an older queue.
#![tactic(auto)]

mod connection;
mod database;
mod new_file;
mod office;
mod shown;
mod spool;

pub use connection::connect;
pub use database::{OpenFault, open_ending, open_found_store, open_store};
pub use new_file::make_file;
pub use office::{OfficeFault, office_ending, read_office};
pub use shown::{Shown, show_office};
pub use spool::{SpoolFault, import_requests, spool_ending};
