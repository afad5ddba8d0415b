//! The names of a setup's lines.

ghost use Rattle.std.specs.Prelude.{◌≡◌, Ok, Err, MatchResult};
ghost use Rattle.std.specs.List.{list_any};
ghost use Rattle.fax_value.specs.Gives.{Gives, Tells};
ghost use Rattle.fax_value.specs.Blank.{is_blank};
ghost use Rattle.fax_hours.specs.Zone.{IsZoneOf};
ghost use Rattle.fax_dest.specs.Fault.{is_memory};
ghost use Rattle.fax_dest.specs.Value.{name_in, is_line_name, is_zone};
ghost use Rattle.fax_dest.specs.declared.fault.FileKind.TheVariants.{BadZone};

use crate::fault::FileKind;
use fax_hours::Zone;
use fax_job::{Call, Name, is_blank};
use std::alloc::Global;

/// What a line of a setup is about.
#[derive(Clone, Copy)]
pub(crate) enum SettingName {
    Modem,
    ModemClass,
    /// The delay after a call that went so.
    Delay(Call),
    MaxJobs,
    MaxGrants,
    TimeZone,
    /// Read and not used.
    Another,
}

impl SettingName {
    ghost use Rattle.std.specs.Prelude.{◌≡◌};
    ghost use Rattle.fax_dest.specs.Setting.{setting_name};

    /// What a name says, letter case aside.
    #[tactic(auto, unfolding(crate::specs::Setting::setting_name))]
    pub(crate) fn of(name: &str) -> SettingName
        ensures { result ≡ setting_name name.now }
    {
        if name.eq_ignore_ascii_case("modem") {
            SettingName::Modem
        } else if name.eq_ignore_ascii_case("modemclass") {
            SettingName::ModemClass
        } else if name.eq_ignore_ascii_case("jobreqbusy") {
            SettingName::Delay(Call::Busy)
        } else if name.eq_ignore_ascii_case("jobreqnoanswer") {
            SettingName::Delay(Call::NoAnswer)
        } else if name.eq_ignore_ascii_case("jobreqnocarrier") {
            SettingName::Delay(Call::NoCarrier)
        } else if name.eq_ignore_ascii_case("jobreqother") {
            SettingName::Delay(Call::Other)
        } else if name.eq_ignore_ascii_case("jobreqproto") {
            SettingName::Delay(Call::Connected)
        } else if name.eq_ignore_ascii_case("maxjobs") {
            SettingName::MaxJobs
        } else if name.eq_ignore_ascii_case("maxgrants") {
            SettingName::MaxGrants
        } else if name.eq_ignore_ascii_case("timezone") {
            SettingName::TimeZone
        } else {
            SettingName::Another
        }
    }
}

/// Whether a text may stand before the `:` of a line.
pub(crate) fn is_line_name(name: &[u8]) -> bool
    ensures { result ≡ is_line_name name.now }
{
    !name.is_empty() && !has_blank(name)
}

fn has_blank(text: &[u8]) -> bool
    ensures { result ≡ list_any is_blank text.now }
{
    text.iter().any(|byte| is_blank(*byte))
}

/// The name of a modem or of a class.
pub(crate) fn name_of(alloc: Global, value: &str) -> Result<Name, FileKind>
    ensures read { Gives is_memory result (name_in value.now) }
    ensures told { Tells result (name_in value.now) }
{
    Ok(Name::read(alloc, value)?)
}

/// The zone of a POSIX TZ rule.
#[tactic(auto, unfolding(crate::specs::Value::is_zone))]
pub(crate) fn zone_of(value: &str) -> Result<Zone, FileKind>
    ensures { MatchResult result (λ zone. (is_zone value.now ≡ Ok value.now) × IsZoneOf value.now zone) (λ kind. is_zone value.now ≡ Err kind) }
{
    match Zone::read(value) {
        Ok(zone) => Ok(zone),
        Err(_) => Err(FileKind::BadZone),
    }
}
