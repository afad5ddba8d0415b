//! What is decided of a request, by the rows that it is about.
//!
//! [`decide`] gives a [`Decision`]: the [`Effect`] of a request that is taken, with its reply, or the
//! reply of one that is refused. Nothing is stored here: the crate above writes the effect and keeps the
//! reply.
#![tactic(auto)]

mod choice;
mod decision;
mod effect;
mod fault;
mod floors;
mod held;
mod import;
mod jobs;
mod modem_list;
mod modems;
mod names;
mod office;
mod purge;
mod records;
mod reports;
mod request;
mod state;
mod submission;
mod times;
mod view;

pub use decision::Decision;
pub use effect::Effect;
pub use fault::Fault;
pub use office::Office;
pub use request::decide;
pub use view::show;
