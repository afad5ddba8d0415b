//! Time zones, and what a clock shows in them.

ghost use Rattle.std.specs.Prelude.{pos, ◌≤ℤ◌, ◌≡◌, ◌↔◌, ℕ, ◌≤◌, ◌+◌, ◌/◌, ◌%◌, Ok, IsOk, IfOk, IsSome, IfErr};
ghost use Rattle.jiff.specs.Words.{read_whole};
ghost use Rattle.jiff.specs.Types.{UTC};
ghost use Rattle.fax_hours.specs.Zone.{IsZoneOf, IsShown, IsCivil, IsWeekMinute, CanBeShown, IsInWeek, pair, week_minute_at};

use fax_value::Moment;
use jiff::Timestamp;
use jiff::civil::DateTime;
use jiff::tz::TimeZone;
use std::marker::Model;
use thiserror::Error;

/// A time zone: a POSIX TZ rule, or UTC.
pub struct Zone {
    zone: TimeZone<'static>,
}

// By hand, so that a proof lets it go in one step.
impl Drop for Zone {
    fn drop(self) {
        let Zone { zone: _ } = self;
    }
}

impl Model for Zone {
    ghost use Rattle.jiff.specs.Types.{TimeZone};
    ghost use Rattle.jiff.specs.ZoneView.{plain_zone};

    ghost Value = { TimeZone };

    ghost view = { λ zone. plain_zone zone.zone };
}

/// Why a text is no time zone.
#[derive(Clone, Copy, Debug, PartialEq, Eq, Error)]
pub enum ZoneFault {
    #[error("not a POSIX TZ rule")]
    BadZone,
}

/// Why a moment isn't shown.
#[derive(Clone, Copy, Debug, PartialEq, Eq, Error)]
pub enum MomentFault {
    #[error("a moment past the calendar's end")]
    PastEnd,
}

/// What a calendar and a clock show, to the minute.
#[derive(Clone, Copy, Debug, PartialEq, Eq)]
pub struct Civil {
    pub year: i16,
    /// From 1 to 12.
    pub month: u8,
    /// From 1 to 31.
    pub day: u8,
    /// From 0 to 23.
    pub hour: u8,
    /// From 0 to 59.
    pub minute: u8,
}

impl Zone {
    /// UTC.
    pub fn utc() -> Zone
        ensures { result ≡ UTC }
    {
        Zone {
            zone: TimeZone::UTC,
        }
    }

    /// The zone of a POSIX TZ rule, as `EST5EDT,M3.2.0,M11.1.0`.
    ///
    /// # Errors
    ///
    /// Where `jiff` reads no rule.
    pub fn read(text: &str) -> Result<Zone, ZoneFault>
        ensures succeeds { IsOk result ↔ IsSome (read_whole text.now) }
        ensures zone { IfOk result (IsZoneOf text.now) }
    {
        match TimeZone::posix(text) {
            Ok(zone) => Ok(Zone { zone }),
            Err(_) => Err(ZoneFault::BadZone),
        }
    }

    /// What a clock in the zone shows at a number of seconds since 1970-01-01T00:00:00Z.
    fn clock_at(&self, seconds: u64) -> Result<DateTime, MomentFault>
        ensures succeeds { IsOk result ↔ CanBeShown seconds }
        ensures shown { IfOk result (IsShown self.now seconds) }
    {
        let Ok(second) = i64::try_from(seconds) else {
            return Err(MomentFault::PastEnd);
        };
        match Timestamp::from_second(second) {
            Ok(instant) => Ok(self.zone.to_datetime(instant)),
            Err(_) => Err(MomentFault::PastEnd),
        }
    }
}

/// The day of the week, from 0 for Sunday to 6, and the minute of the day, from 0 to 1439, of a moment
/// in a zone.
///
/// # Errors
///
/// None: each moment is within the calendar.
pub fn week_minute(zone: &Zone, moment: Moment) -> Result<(u8, u16), MomentFault>
    // The pair is that of the date and time that `jiff` gives.
    ensures civil { IfOk result (IsWeekMinute zone.now moment) }
    // The same as one equation; so it never fails.
    ensures pair { result ≡ Ok (week_minute_at zone.now moment) }
    ensures bounds { IfOk result IsInWeek }
{
    let clock = zone.clock_at(u64::from(moment.seconds()))?;
    let day = unsigned(clock.weekday().to_sunday_zero_offset());
    let minute = u16::from(unsigned(clock.hour())) * 60 + u16::from(unsigned(clock.minute()));
    Ok((day, minute))
}

/// The pair of a moment in UTC, counted from the seconds since 1970-01-01T00:00:00Z, a Thursday.
pub fn week_minute_in_utc()
    ensures { (moment : ℕ) → week_minute_at UTC moment ≡ pair ((moment / 86400 + 4) % 7) (moment % 86400 / 60) }
{}

/// The date and the time of day in a zone at a number of seconds since 1970-01-01T00:00:00Z.
///
/// # Errors
///
/// Past 253402207200 seconds, the last instant of `jiff`'s calendar.
pub fn civil_minute(zone: &Zone, seconds: u64) -> Result<Civil, MomentFault>
    ensures succeeds { IsOk result ↔ CanBeShown seconds }
    ensures end { IsOk result ↔ (seconds ≤ 253402207200) }
    ensures civil { IfOk result (IsCivil zone.now seconds) }
{
    let clock = zone.clock_at(seconds)?;
    Ok(Civil {
        year: clock.year(),
        month: unsigned(clock.month()),
        day: unsigned(clock.day()),
        hour: unsigned(clock.hour()),
        minute: unsigned(clock.minute()),
    })
}

/// A number of `jiff`'s that isn't negative.
fn unsigned(number: i8) -> u8
    requires { pos 0 ≤ℤ number }
    ensures { pos result ≡ number }
{
    number as u8
}
