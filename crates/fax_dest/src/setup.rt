//! The setup of modems.

ghost use Rattle.std.specs.Prelude.{◌≤◌};
ghost use Rattle.fax_value.specs.Limits.{last_grant, last_job, longest_delay};
ghost use Rattle.fax_dest.specs.Pattern.{IsPlain};

use crate::fault::{FileFault, FileKind};
use crate::line::{at_colon, is_skipped, number_in, value_of};
use crate::pattern::{is_found, pattern};
use crate::setting::{SettingName, is_line_name, name_of, zone_of};
use fax_hours::Zone;
use fax_job::limits::{LAST_GRANT, LAST_JOB, LONGEST_DELAY};
use fax_job::{Call, Name};
use fax_lines::cut_line;
use regex::Regex;
use std::alloc::{AllocError, Global};

/// Modems, classes of modems, delays, limits and a time zone.
pub struct Setup {
    modems: Vec<Name>,
    classes: Vec<Class>,
    /// Seconds after a call that was busy, and so on.
    busy: u32,
    no_answer: u32,
    no_carrier: u32,
    other: u32,
    proto: u32,
    max_jobs: u32,
    max_grants: u32,
    zone: Zone,
    ghost short_delays: { (busy ≤ longest_delay) × (no_answer ≤ longest_delay) × (no_carrier ≤ longest_delay) × (other ≤ longest_delay) × (proto ≤ longest_delay) },
    ghost small_numbers: { (1 ≤ max_jobs) × (max_jobs ≤ last_job) × (1 ≤ max_grants) × (max_grants ≤ last_grant) },
}

// By hand, so that a proof lets it go in one step.
impl Drop for Setup {
    fn drop(self) {
        let Setup {
            modems: _,
            classes: _,
            busy: _,
            no_answer: _,
            no_carrier: _,
            other: _,
            proto: _,
            max_jobs: _,
            max_grants: _,
            zone: _,
        } = self;
    }
}

/// A name for the modems in whose names a pattern is found.
#[derive(Drop)]
pub struct Class {
    name: Name,
    pattern: Regex,
    ghost plain: { ∥ IsPlain pattern ∥₁ },
}

impl Class {
    ghost use Rattle.std.specs.Prelude.{◌≡◌, IfOk};
    ghost use Rattle.std.specs.List.{list_any};
    ghost use Rattle.regex.specs.Strings.{regex_source};
    ghost use Rattle.fax_dest.specs.Fault.{GivesLine};
    ghost use Rattle.fax_dest.specs.Line.{at_byte};
    ghost use Rattle.fax_dest.specs.Setting.{class_written, ClassOf};
    ghost use Rattle.fax_dest.specs.Setup.{class_text, admits_class};

    /// The class that `name:regex` writes.
    fn read(alloc: Global, value: &str) -> Result<Class, FileKind>
        ensures { GivesLine (λ setting class. setting ≡ ClassOf (class_text class)) (λ compile. class_written compile (at_byte 58 value.now)) result }
    {
        let Some((name, text)) = at_colon(value) else {
            return Err(FileKind::BadValue);
        };
        let name = name_of(alloc, name)?;
        let pattern = pattern(alloc, text)?;
        Ok(Class { name, pattern })
    }

    pub fn name(&self) -> &str
        ensures { result.now ≡ self.now.name }
    {
        self.name.as_str()
    }

    /// The text of the pattern.
    pub fn pattern(&self) -> &str
        ensures { result.now ≡ regex_source self.now.pattern }
    {
        self.pattern.as_str()
    }

    /// Whether a class among some has the name, and its pattern is found in the modem's name.
    fn is_any(alloc: Global, classes: &[Class], name: &str, modem: &str) -> Result<bool, AllocError>
        ensures { IfOk result (λ found. found ≡ list_any (admits_class name.now modem.now) classes.now) }
    {
        let mut rest = classes;
        while let [class, after @ ..] = rest {
            if class.name.as_str() == name && is_found(alloc, &class.pattern, modem)? {
                return Ok(true);
            }
            rest = after;
        }
        Ok(false)
    }
}

impl Setup {
    ghost use Rattle.std.specs.Prelude.{◌≡◌, ◌≤◌, IfOk, Err};
    ghost use Rattle.std.specs.Str.{IsUtf8};
    ghost use Rattle.fax_dest.specs.Fault.{GivesFile, GivesLine, fault_at};
    ghost use Rattle.fax_dest.specs.Setting.{setting_of, setting_in};
    ghost use Rattle.fax_dest.specs.Setup.{settings_of, IsSetupOf, has_modem, delay_of, admits};
    ghost use Rattle.fax_dest.specs.SetupStep.{IsEmpty, IsSetBy, IsDelaySet};
    ghost use Rattle.fax_dest.specs.declared.fault.FileKind.TheVariants.{NotText};

    /// The setup that a text spells.
    ///
    /// Lines of blanks and lines whose first character past blanks is `#` are skipped; the others are
    /// `Name: value`. `Modem` is a modem's name, `ModemClass` is `name:regex`, both once or more; the
    /// last line holds of `JobReqBusy`, `JobReqNoAnswer`, `JobReqNoCarrier`, `JobReqOther` and
    /// `JobReqProto` (seconds to wait, 0 to 86400), `MaxJobs` (1 to 999999), `MaxGrants` (1 to
    /// 999999999) and `TimeZone` (a POSIX TZ rule). Other names are read and not used.
    ///
    /// # Errors
    ///
    /// The first fault of the text.
    pub fn read(alloc: Global, bytes: &[u8]) -> Result<Setup, FileFault>
        ensures text { IsUtf8 bytes.now → GivesFile IsSetupOf (settings_of bytes.now) result }
        ensures not_text { ¬ (IsUtf8 bytes.now) → result ≡ Err (fault_at 0 NotText) }
    {
        match str::from_utf8(bytes) {
            Ok(text) => Setup::read_text(alloc, text),
            Err(_) => Err(FileFault {
                line: 0,
                kind: FileKind::NotText,
            }),
        }
    }

    fn read_text(alloc: Global, text: &str) -> Result<Setup, FileFault>
        ensures { GivesFile IsSetupOf (settings_of text.now) result }
    {
        let mut setup = Setup::empty(alloc);
        let mut rest = text;
        let mut number: u64 = 0;
        while !rest.is_empty() {
            let (line, after) = cut_line(rest);
            number += 1;
            if let Err(kind) = setup.take(alloc, line) {
                return Err(FileFault { line: number, kind });
            }
            rest = after;
        }
        Ok(setup)
    }

    /// The setup of no lines.
    fn empty(alloc: Global) -> Setup
        ensures { IsEmpty result }
    {
        Setup {
            modems: Vec::new(alloc),
            classes: Vec::new(alloc),
            busy: 180,
            no_answer: 300,
            no_carrier: 300,
            other: 300,
            proto: 60,
            max_jobs: LAST_JOB,
            max_grants: LAST_GRANT,
            zone: Zone::utc(),
        }
    }

    /// Takes what a line says.
    #[tactic(auto, unfolding(crate::specs::Setting::setting_of))]
    fn take(&mut self, alloc: Global, line: &str) -> Result<(), FileKind>
        ensures { GivesLine (λ setting _. IsSetBy setting self.old self.new) (setting_of line.now) result }
    {
        if is_skipped(line) {
            return Ok(());
        }
        let Some((name, rest)) = at_colon(line) else {
            return Err(FileKind::NoColon);
        };
        if !is_line_name(name.as_bytes()) {
            return Err(FileKind::NoColon);
        }
        let Some(value) = value_of(rest) else {
            return Err(FileKind::BadQuote);
        };
        self.set(alloc, SettingName::of(name), value)
    }

    fn set(&mut self, alloc: Global, name: SettingName, value: &str) -> Result<(), FileKind>
        ensures { GivesLine (λ setting _. IsSetBy setting self.old self.new) (λ compile. setting_in compile name value.now) result }
    {
        match name {
            SettingName::Modem => self.modems.push(name_of(alloc, value)?)?,
            SettingName::ModemClass => self.classes.push(Class::read(alloc, value)?)?,
            SettingName::Delay(call) => self.set_delay(call, number_in(0, LONGEST_DELAY, value)?),
            SettingName::MaxJobs => self.max_jobs = number_in(1, LAST_JOB, value)?,
            SettingName::MaxGrants => self.max_grants = number_in(1, LAST_GRANT, value)?,
            SettingName::TimeZone => self.zone = zone_of(value)?,
            SettingName::Another => {}
        }
        Ok(())
    }

    fn set_delay(&mut self, call: Call, seconds: u32)
        requires { seconds ≤ longest_delay }
        ensures { IsDelaySet call seconds self.old self.new }
    {
        match call {
            Call::Connected => self.proto = seconds,
            Call::Busy => self.busy = seconds,
            Call::NoAnswer => self.no_answer = seconds,
            Call::NoCarrier => self.no_carrier = seconds,
            Call::Other => self.other = seconds,
        }
    }

    /// The names of the modems, in the order of the setup.
    pub fn modems(&self) -> &[Name]
        ensures { result.now ≡ self.now.modems.items }
    {
        self.modems.as_slice()
    }

    /// The classes of modems, in the order of the setup.
    pub fn classes(&self) -> &[Class]
        ensures { result.now ≡ self.now.classes.items }
    {
        self.classes.as_slice()
    }

    /// Whether the modem is one of the setup's.
    pub fn has_modem(&self, modem: &str) -> bool
        ensures { result ≡ has_modem self.now modem.now }
    {
        self.modems.iter().any(|name| name.as_str() == modem)
    }

    /// Whether a job that asks for a value may go to a modem: the value is `any`, the modem's name, or
    /// the name of a class with a pattern that is found anywhere in the modem's name.
    #[tactic(auto, unfolding(crate::specs::Setup::admits))]
    pub fn admits(&self, alloc: Global, value: &str, modem: &str) -> Result<bool, AllocError>
        ensures { IfOk result (λ admitted. admitted ≡ admits self.now value.now modem.now) }
    {
        if value == "any" || value == modem {
            return Ok(true);
        }
        Class::is_any(alloc, &self.classes, value, modem)
    }

    /// Seconds to wait after a call that went so, or after none.
    pub fn delay(&self, call: Option<Call>) -> u64
        ensures seconds { result ≡ delay_of self.now call }
        ensures bound { result ≤ longest_delay }
    {
        u64::from(match call {
            Some(Call::Connected) => self.proto,
            Some(Call::Busy) => self.busy,
            Some(Call::NoAnswer) => self.no_answer,
            Some(Call::NoCarrier) => self.no_carrier,
            Some(Call::Other) | None => self.other,
        })
    }

    /// The greatest number of a job.
    pub fn max_jobs(&self) -> u32
        ensures number { result ≡ self.now.max_jobs }
        ensures bounds { (1 ≤ result) × (result ≤ last_job) }
    {
        self.max_jobs
    }

    /// The greatest number of a grant.
    pub fn max_grants(&self) -> u32
        ensures number { result ≡ self.now.max_grants }
        ensures bounds { (1 ≤ result) × (result ≤ last_grant) }
    {
        self.max_grants
    }

    /// The zone in which hours are meant.
    pub fn zone(&self) -> &Zone
        ensures { result.now ≡ self.now.zone }
    {
        &self.zone
    }
}
