//! Texts for people at a terminal: the listing of a queue's jobs, after HylaFAX's faxstat(1), and the
//! request that hands in a job, by the options of its sendfax(1), or brings one in from its queue. The words of
//! the command line are read into a [`Plan`], and a command ends with a [`Status`].
#![tactic(auto)]

mod check_words;
mod client_words;
mod column;
mod import;
mod import_words;
mod list_words;
mod listing;
mod modems;
mod sendfax;
mod server;
mod status;
mod time;
mod times;
mod words;

pub use check_words::CheckPlan;
pub use client_words::{Journaled, PostPlan, WorkerPlan};
pub use import::{ImportFault, first_number, import_request};
pub use import_words::ImportPlan;
pub use list_words::ListPlan;
pub use listing::{ListFault, list};
pub use modems::{HeldGrant, Standing, push_modem};
pub use sendfax::{SendFault, SendPlan, request};
pub use server::{OfficeFiles, ServePlan};
pub use status::Status;
pub use times::push_times;
pub use words::{Plan, WordsFault, read_words};
