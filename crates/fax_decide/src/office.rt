//! What the queue asks of its setup and its destination controls.

ghost use Rattle.std.specs.Prelude.{◌≡◌, Ok, IfOk, OnOk};
ghost use Rattle.fax_dest.specs.Finder.{IsFinderOf};
ghost use Rattle.fax_decide.specs.Settings.{has_minute, rule_for};
ghost use Rattle.fax_hours.specs.Zone.{week_minute_at};
ghost use Rattle.fax_store.specs.Calls.{within};

use fax_core::state_at;
use fax_dest::{Controls, Finder, Rule, Setup};
use fax_hours::{MomentFault, week_minute};
use fax_job::{Dial, Job, Moment};
use std::alloc::{AllocError, Global};
use std::marker::Model;

/// An office: its modems, delays and limits, and what holds for the numbers that it sends to.
#[derive(Drop)]
pub struct Office {
    pub setup: Setup,
    pub controls: Controls,
}

impl Office {
    /// The rule of a number.
    ///
    /// # Errors
    ///
    /// Want of memory for the search.
    pub fn rule_of(&self, alloc: Global, dial: &Dial) -> Result<&Rule, AllocError>
        ensures { IfOk result (λ rule. rule.now ≡ rule_for self.now.controls dial.now) }
    {
        let place = self.controls.rule_of(alloc, dial)?;
        Ok(self.controls.rule_at(place))
    }

    /// The rule of a number, of which there may be many to look up.
    pub(crate) fn rule_by(
        &self,
        finder: &mut Finder<'_>,
        alloc: Global,
        dial: &Dial,
    ) -> Result<&Rule, AllocError>
        ensures { IsFinderOf self.now.controls finder.old → OnOk result (IsFinderOf self.now.controls finder.new)
            × IfOk result (λ rule. rule.now ≡ rule_for self.now.controls dial.now) }
    {
        let place = finder.rule_of(alloc, dial)?;
        Ok(self.controls.rule_at(place))
    }

    /// The minute of the week at a moment, by the clock of the office.
    ///
    /// # Errors
    ///
    /// None: each moment is within `jiff`'s calendar.
    pub(crate) fn minute_at(&self, moment: Moment) -> Result<WeekMinute, MomentFault>
        ensures { result ≡ Ok (week_minute_at self.now.setup.zone moment) }
    {
        let (day, minute) = week_minute(self.setup.zone(), moment)?;
        Ok(WeekMinute { day, minute })
    }
}

/// A day of the week and a minute of that day.
#[derive(Drop)]
pub(crate) struct WeekMinute {
    /// From 0 for Sunday to 6.
    day: u8,
    /// From 0 to 1439.
    minute: u16,
}

impl Model for WeekMinute {
    ghost use Rattle.fax_hours.specs.Zone.{IsInWeek, WeekMinute, pair};

    ghost Value = { WeekMinute };

    ghost view = { λ it. pair it.day it.minute };

    ghost invariant = { λ it. IsInWeek (pair it.day it.minute) };
}

impl WeekMinute {
    /// Whether the hours of a rule have it.
    pub(crate) fn is_in_hours(&self, rule: &Rule) -> bool
        ensures { result ≡ has_minute rule.now.hours self.now }
    {
        rule.hours.admits(self.day, self.minute)
    }
}
