//! What setup and controls mean, in text, for an administrator to compare with what was meant.
//!
//! The text is trusted: no clause speaks of it, and `checks/run settings` compares it. Which lines aren't used is proved.
#![tactic(auto)]

mod hours_text;
mod office_text;
mod unused;

pub use office_text::{push_controls, push_setup};
pub use unused::{push_unused_controls, push_unused_settings};
