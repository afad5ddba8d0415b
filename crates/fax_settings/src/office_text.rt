//! Setup and controls in text, in the syntax of their files.
//!
//! No clause speaks of the text; `checks/run settings` compares it.

use crate::hours_text::push_hours;
use fax_dest::{Controls, Entry, Rule, Setup, zone_in};
use fax_job::Call;
use fax_lines::cut_line;
use std::alloc::AllocError;

/// What follows the calls of a number, and the name of its delay.
const DELAYS: [(Call, &str); 5] = [
    (Call::Busy, "JobReqBusy"),
    (Call::NoAnswer, "JobReqNoAnswer"),
    (Call::NoCarrier, "JobReqNoCarrier"),
    (Call::Other, "JobReqOther"),
    (Call::Connected, "JobReqProto"),
];

/// Adds what a setup means, a line for each setting. `source` is the text that it was read from, which has the name of
/// the time zone.
pub fn push_setup(text: &mut String, setup: &Setup, source: &str) -> Result<(), AllocError> {
    text.push_str("setup:\n")?;
    push_modems(text, setup)?;
    push_classes(text, setup)?;
    for (call, name) in DELAYS {
        let seconds = setup.delay(Some(call));
        write!(text, "  {name}: {seconds}\n")?;
    }
    let (jobs, grants) = (setup.max_jobs(), setup.max_grants());
    let zone = zone_of(source);
    write!(
        text,
        "  MaxJobs: {jobs}\n  MaxGrants: {grants}\n  TimeZone: {zone}\n"
    )
}

fn push_modems(text: &mut String, setup: &Setup) -> Result<(), AllocError> {
    for modem in setup.modems() {
        let name = modem.as_str();
        write!(text, "  Modem: {name}\n")?;
    }
    Ok(())
}

fn push_classes(text: &mut String, setup: &Setup) -> Result<(), AllocError> {
    for class in setup.classes() {
        let (name, pattern) = (class.name(), class.pattern());
        write!(text, "  ModemClass: {name}:{pattern}\n")?;
    }
    Ok(())
}

/// The time zone that the last line with one sets, or else that of a setup without one.
fn zone_of(source: &str) -> &str {
    let mut zone = "UTC0";
    let mut rest = source;
    while !rest.is_empty() {
        let (line, after) = cut_line(rest);
        if let Some(named) = zone_in(line) {
            zone = named;
        }
        rest = after;
    }
    zone
}

/// Adds what controls mean: each rule with all its parameters, and what holds for all other numbers.
pub fn push_controls(text: &mut String, controls: &Controls) -> Result<(), AllocError> {
    text.push_str("controls:\n")?;
    for entry in controls.rules() {
        push_entry(text, entry)?;
    }
    text.push_str("  any other number\n")?;
    push_rule(text, &Rule::default_rule())
}

fn push_entry(text: &mut String, entry: &Entry) -> Result<(), AllocError> {
    let pattern = entry.pattern();
    write!(text, "  {pattern}\n")?;
    push_rule(text, entry.rule())
}

fn push_rule(text: &mut String, rule: &Rule) -> Result<(), AllocError> {
    let calls = rule.calls;
    write!(text, "    MaxConcurrentCalls = {calls}\n")?;
    if let Some(pages) = rule.pages {
        write!(text, "    MaxSendPages = {pages}\n")?;
    }
    text.push_str("    TimeOfDay =")?;
    push_hours(text, &rule.hours)?;
    text.push_str("\n")?;
    if let Some(notice) = &rule.notice {
        let notice = notice.as_str();
        write!(text, "    RejectNotice = \"{notice}\"\n")?;
    }
    Ok(())
}
