//! Hours of the week, as the `TimeOfDay` parameter of HylaFAX's destination controls names them, and
//! time zones.
//!
//! [`Hours`] is a set of minutes of the week, read from its text. A [`Zone`] is a POSIX TZ rule; in it
//! [`week_minute`] gives the day of the week and the minute of a moment, and [`civil_minute`] its date.
#![tactic(auto)]

mod days;
mod hours;
mod item;
mod range;
mod zone;

pub use hours::{Hours, HoursFault};
pub use zone::{
    Civil, MomentFault, Zone, ZoneFault, civil_minute, week_minute, week_minute_in_utc,
};
