//! Hours of the week in text, as `TimeOfDay` writes them: ` Mo0800-1200 Mo1300-1800`.
//!
//! No clause speaks of the text; `checks/run settings` compares it.

ghost use Rattle.std.specs.Prelude.{◌<◌};

use fax_hours::Hours;
use std::alloc::AllocError;

const DAYS: [&str; 7] = ["Su", "Mo", "Tu", "We", "Th", "Fr", "Sa"];

const MINUTES: u16 = 1_440;

/// Adds the hours: ` Any`, ` Never`, or each range of each day.
pub(crate) fn push_hours(text: &mut String, hours: &Hours) -> Result<(), AllocError> {
    if has_all(hours) {
        return text.push_str(" Any");
    }
    let empty = text.len();
    for day in 0..7 {
        push_day(text, hours, day)?;
    }
    if text.len() == empty {
        text.push_str(" Never")?;
    }
    Ok(())
}

/// Adds the ranges of one day, from 0 for Sunday to 6.
fn push_day(text: &mut String, hours: &Hours, day: u8) -> Result<(), AllocError>
    requires { day < 7 }
{
    let name = DAYS[day as usize];
    let mut begun = None;
    for minute in 0..MINUTES {
        let is_in = hours.admits(day, minute);
        if let Some(start) = begun {
            if !is_in {
                push_range(text, name, start, minute)?;
                begun = None;
            }
        } else if is_in {
            begun = Some(minute);
        }
    }
    if let Some(start) = begun {
        push_range(text, name, start, MINUTES)?;
    }
    Ok(())
}

/// Adds the minutes of a day from the first up to the last, which is out.
fn push_range(text: &mut String, name: &str, start: u16, end: u16) -> Result<(), AllocError> {
    let (hour, minute) = (start / 60, start % 60);
    let (last_hour, last_minute) = (end / 60, end % 60);
    write!(
        text,
        " {name}{hour:02}{minute:02}-{last_hour:02}{last_minute:02}"
    )
}

/// Whether each minute of the week is in.
fn has_all(hours: &Hours) -> bool {
    for day in 0..7 {
        if !has_day(hours, day) {
            return false;
        }
    }
    true
}

fn has_day(hours: &Hours, day: u8) -> bool
    requires { day < 7 }
{
    for minute in 0..MINUTES {
        if !hours.admits(day, minute) {
            return false;
        }
    }
    true
}
