//! The lines of setup and controls that are read and not used.

ghost use Rattle.std.specs.Prelude.{◌≡◌, IfOk};
ghost use Rattle.std.specs.List.{list_any};
ghost use Rattle.fax_dest.specs.Unused.{is_unused_control, is_unused_setting};
ghost use Rattle.fax_lines.specs.Reading.{lines};

use fax_dest::{is_unused_control, is_unused_setting};
use fax_lines::cut_line;
use std::alloc::AllocError;

/// Adds each line of a setup that isn't used, with its number. Returns whether there is one.
///
/// # Errors
///
/// Out of memory.
pub fn push_unused_settings(text: &mut String, setup: &str) -> Result<bool, AllocError>
    ensures { IfOk result (λ found. found ≡ list_any is_unused_setting (lines setup.now)) }
{
    let mut found = false;
    let mut rest = setup;
    let mut number: u64 = 0;
    while !rest.is_empty() {
        let (line, after) = cut_line(rest);
        number += 1;
        if is_unused_setting(line) {
            found = true;
            write!(text, "not used: setup line {number}: {line}\n")?;
        }
        rest = after;
    }
    Ok(found)
}

/// Adds each line of controls that isn't used, with its number. Returns whether there is one.
///
/// # Errors
///
/// Out of memory.
pub fn push_unused_controls(text: &mut String, controls: &str) -> Result<bool, AllocError>
    ensures { IfOk result (λ found. found ≡ list_any is_unused_control (lines controls.now)) }
{
    let mut found = false;
    let mut rest = controls;
    let mut number: u64 = 0;
    while !rest.is_empty() {
        let (line, after) = cut_line(rest);
        number += 1;
        if is_unused_control(line) {
            found = true;
            write!(text, "not used: controls line {number}: {line}\n")?;
        }
        rest = after;
    }
    Ok(found)
}
