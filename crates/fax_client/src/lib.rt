//! A client of the queue that keeps a journal: what it has begun it sends again until it is answered, whatever the network
//! loses, and whenever it is killed.
#![tactic(auto)]

mod answered;
mod asking;
mod line;
mod look;
mod message;
mod number;
mod posting;
mod queue_line;
mod reason;
mod saved;
mod shown;
mod step;
mod stop;
mod working;

pub use line::Line;
pub use number::Ticks;
pub use posting::{Posting, forget, post};
pub use queue_line::QueueLine;
pub use shown::Shown;
pub use step::{Step, StepFault, read_step};
pub use stop::Stop;
pub use working::work;
