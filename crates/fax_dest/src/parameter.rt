//! Parameters of rules.

use crate::fault::FileKind;
use crate::line::{at_equals, number_in, trimmed, value_of};
use fax_hours::Hours;
use fax_job::limits::{MOST_ATTEMPTS, MOST_PAGES};
use fax_rule::{Notice, Rule};
use std::alloc::Global;

/// What a parameter is about.
#[derive(Clone, Copy)]
pub(crate) enum ParameterName {
    Calls,
    Pages,
    TimeOfDay,
    RejectNotice,
    /// Read and not used.
    Another,
}

/// What a parameter says.
#[derive(Drop)]
pub(crate) enum Parameter {
    Calls(u16),
    Pages(u16),
    TimeOfDay(Hours),
    RejectNotice(Option<Notice>),
    Another,
}

impl ParameterName {
    ghost use Rattle.std.specs.Prelude.{◌≡◌};
    ghost use Rattle.fax_dest.specs.Parameter.{parameter_name};

    /// What a name says, letter case aside.
    #[tactic(auto, unfolding(crate::specs::Parameter::parameter_name))]
    pub(crate) fn of(name: &str) -> ParameterName
        ensures { result ≡ parameter_name name.now }
    {
        if name.eq_ignore_ascii_case("maxconcurrentcalls")
            || name.eq_ignore_ascii_case("maxconcurrentjobs")
        {
            ParameterName::Calls
        } else if name.eq_ignore_ascii_case("maxsendpages") {
            ParameterName::Pages
        } else if name.eq_ignore_ascii_case("timeofday") {
            ParameterName::TimeOfDay
        } else if name.eq_ignore_ascii_case("rejectnotice") {
            ParameterName::RejectNotice
        } else {
            ParameterName::Another
        }
    }
}

impl Parameter {
    ghost use Rattle.std.specs.Prelude.{◌≡◌};
    ghost use Rattle.fax_value.specs.Gives.{Gives};
    ghost use Rattle.fax_dest.specs.Fault.{is_memory};
    ghost use Rattle.fax_dest.specs.Parameter.{parameter_of, parameter_in, hours_in, notice_in};
    ghost use Rattle.fax_dest.specs.Rule.{with_parameter};

    /// The parameter that `Name = value` writes.
    #[tactic(auto, unfolding(crate::specs::Parameter::parameter_of))]
    pub(crate) fn read(alloc: Global, text: &str) -> Result<Parameter, FileKind>
        ensures { Gives is_memory result (parameter_of text.now) }
    {
        let Some((name, rest)) = at_equals(text) else {
            return Err(FileKind::NoEquals);
        };
        let Some(value) = value_of(rest) else {
            return Err(FileKind::BadQuote);
        };
        Parameter::of(alloc, ParameterName::of(trimmed(name)), value)
    }

    fn of(alloc: Global, name: ParameterName, value: &str) -> Result<Parameter, FileKind>
        ensures { Gives is_memory result (parameter_in name value.now) }
    {
        match name {
            ParameterName::Calls => Ok(Parameter::Calls(
                number_in(1, u32::from(MOST_ATTEMPTS), value)? as u16,
            )),
            ParameterName::Pages => Ok(Parameter::Pages(
                number_in(1, u32::from(MOST_PAGES), value)? as u16,
            )),
            ParameterName::TimeOfDay => Parameter::hours(value),
            ParameterName::RejectNotice => Ok(Parameter::RejectNotice(Parameter::notice(
                alloc, value,
            )?)),
            ParameterName::Another => Ok(Parameter::Another),
        }
    }

    fn hours(value: &str) -> Result<Parameter, FileKind>
        ensures { result ≡ hours_in value.now }
    {
        match Hours::read(value) {
            Ok(hours) => Ok(Parameter::TimeOfDay(hours)),
            Err(_) => Err(FileKind::BadHours),
        }
    }

    /// The notice that a value is; none where it is empty.
    fn notice(alloc: Global, value: &str) -> Result<Option<Notice>, FileKind>
        ensures { Gives is_memory result (notice_in value.now) }
    {
        if value.is_empty() {
            return Ok(None);
        }
        if !Notice::is_notice(value) {
            return Err(FileKind::BadValue);
        }
        let text = String::from_str(alloc, value)?;
        Ok(Some(Notice::new(text)))
    }

    /// Sets what the parameter says.
    pub(crate) fn set(self, rule: &mut Rule)
        ensures { rule.new ≡ with_parameter rule.old self }
    {
        match self {
            Parameter::Calls(calls) => rule.calls = calls,
            Parameter::Pages(pages) => rule.pages = Some(pages),
            Parameter::TimeOfDay(hours) => rule.hours = hours,
            Parameter::RejectNotice(notice) => rule.notice = notice,
            Parameter::Another => {}
        }
    }
}
