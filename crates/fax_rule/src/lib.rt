//! What holds for a destination, after HylaFAX's destctrls(5).
//!
//! A [`Rule`] says how many calls at a time a number gets, how many pages a job may have, when calls may be made,
//! and whether no job is taken; then its [`Notice`] says why.
#![tactic(auto)]

mod notice;
mod rule;

pub use notice::Notice;
pub use rule::Rule;
