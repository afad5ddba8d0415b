//! Lines of setup and controls that are read and not used: what is most often a typing error.

ghost use Rattle.std.specs.Prelude.{◌≡◌};
ghost use Rattle.std.specs.List.{list_any};
ghost use Rattle.std.specs.Option.{option_copied};
ghost use Rattle.fax_dest.specs.Line.{at_byte};
ghost use Rattle.fax_dest.specs.Unused.{is_foreign, is_unused_control, is_unused_setting, no_parameter, sets_nothing, zone_in};

use crate::line::{at_blank, at_colon, at_equals, is_indented, is_skipped, trimmed, value_of};
use crate::parameter::ParameterName;
use crate::setting::SettingName;

/// Whether a line of a setup has a name that no setting has.
#[tactic(auto, unfolding(crate::specs::Unused::is_unused_setting))]
pub fn is_unused_setting(line: &str) -> bool
    ensures { result ≡ is_unused_setting line.now }
{
    if is_skipped(line) {
        return false;
    }
    match at_colon(line) {
        Some((name, _)) => matches!(SettingName::of(name), SettingName::Another),
        None => false,
    }
}

/// The time zone that a line of a setup sets, as it is written, if it sets one.
#[tactic(auto, unfolding(crate::specs::Unused::zone_in))]
pub fn zone_in(line: &str) -> Option<&str>
    ensures { option_copied result ≡ zone_in line.now }
{
    if is_skipped(line) {
        return None;
    }
    let (name, rest) = at_colon(line)?;
    match SettingName::of(name) {
        SettingName::TimeZone => value_of(rest),
        _ => None,
    }
}

/// Whether a line of controls has a parameter with a name that no parameter has, or begins a rule whose pattern no
/// number matches: one with a `=` or a character that isn't ASCII, as where a parameter isn't indented.
#[tactic(auto, unfolding(crate::specs::Unused::is_unused_control))]
pub fn is_unused_control(line: &str) -> bool
    ensures { result ≡ is_unused_control line.now }
{
    if is_skipped(line) {
        return false;
    }
    if is_indented(line) {
        return no_parameter(line);
    }
    let (pattern, rest) = at_blank(line);
    is_foreign(pattern.as_bytes()) || no_parameter(rest)
}

/// Whether a text is a parameter with a name that no parameter has.
#[tactic(auto, unfolding(crate::specs::Unused::no_parameter))]
fn no_parameter(text: &str) -> bool
    ensures { result ≡ no_parameter text.now }
{
    if is_skipped(text) {
        return false;
    }
    match at_equals(text) {
        Some((name, _)) => matches!(ParameterName::of(trimmed(name)), ParameterName::Another),
        None => false,
    }
}

/// Whether a pattern has a character that no number has and no pattern needs.
fn is_foreign(pattern: &[u8]) -> bool
    ensures { result ≡ list_any is_foreign pattern.now }
{
    pattern.iter().any(|byte| *byte == b'=' || !byte.is_ascii())
}
