//! The files of a fax queue's administrator: controls of destinations, after HylaFAX's destctrls(5),
//! and the setup of modems, after hylafax-config(5).
//!
//! [`Controls`] are a list of rules, of which the first whose pattern a number matches holds for that
//! number. A [`Setup`] has modems, classes of modems, delays, limits and a time zone. What is wrong with
//! a file is told as a [`FileFault`], with its line.
#![tactic(auto)]

mod controls;
mod fault;
mod finder;
mod line;
mod parameter;
mod pattern;
mod setting;
mod setup;
mod unused;

pub use controls::{Controls, Entry};
pub use fault::{FileFault, FileKind};
pub use fax_rule::{Notice, Rule};
pub use finder::Finder;
pub use setup::{Class, Setup};
pub use unused::{is_unused_control, is_unused_setting, zone_in};
