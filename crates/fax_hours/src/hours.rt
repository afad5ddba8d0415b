//! Hours of the week.

ghost use Rattle.std.specs.Prelude.{◌≡◌, ◌<◌, ℕ, List, true, IfOk, length, slice_index, replicate};
ghost use Rattle.fax_hours.specs.Hours.{IsNamedBy, hours_of, every_hour, with_days, is_in};

use crate::item::{Item, item_of};
use fax_value::at_comma;
use std::marker::Model;
use thiserror::Error;

/// A set of minutes of the week.
#[derive(Drop)]
pub struct Hours {
    /// For each minute of the day the days of the week, bit d for day d.
    days: [u8; 1440],
}

impl Model for Hours {
    ghost Value = { List ℕ };

    ghost view = { λ hours. hours.days };

    ghost invariant = { λ hours. length hours.days ≡ 1440 };
}

/// Why a text names no hours.
#[derive(Clone, Copy, Debug, PartialEq, Eq, Error)]
pub enum HoursFault {
    #[error("an empty item")]
    Empty,
    #[error("not days of the week")]
    Day,
    #[error("not a range of minutes")]
    Range,
}

impl Hours {
    /// The hours that a text names: items divided by commas, each `Any`, `Never` or days of two letters
    /// side by side (`Wk` is Monday to Friday), and behind them a range `hhmm-hhmm` or nothing. Blanks
    /// round items and letter case have no meaning. The end of a range is out, and may be `2400`. Where
    /// the start isn't before the end, the range goes over midnight, on the same named days.
    ///
    /// # Errors
    ///
    /// The fault of the first item that has one.
    pub fn read(text: &str) -> Result<Hours, HoursFault>
        // A minute is in just where an item covers it.
        ensures set { IfOk result (IsNamedBy text.now) }
        // The week of the text's items, or the first fault that one of them has.
        ensures week { result ≡ hours_of text.now }
    {
        let mut hours = Hours::on_days(0);
        let mut rest = Some(text.as_bytes());
        while let Some(parts) = rest {
            let (item, after) = at_comma(parts);
            hours.add(item_of(item)?);
            rest = after;
        }
        Ok(hours)
    }

    /// All minutes of the week.
    #[tactic(auto, unfolding(crate::specs::Hours::every_hour))]
    pub fn any() -> Hours
        ensures all { (day minute : ℕ) → day < 7 → minute < 1440 → is_in result day minute ≡ true }
        ensures week { result ≡ every_hour }
    {
        Hours::on_days(0b111_1111)
    }

    /// All minutes of days, with bit d for day d.
    fn on_days(days: u8) -> Hours
        ensures { result ≡ replicate 1440 days }
    {
        Hours { days: [days; 1440] }
    }

    /// Whether a minute of the day, from 0 to 1439, is in on a day of the week, from 0 for Sunday to 6.
    pub fn admits(&self, day: u8, minute: u16) -> bool
        requires day { day < 7 }
        requires minute { minute < 1440 }
        ensures { result ≡ is_in self.now day minute }
    {
        self.days[minute as usize] >> day & 1 == 1
    }

    /// Takes the minutes of an item in.
    fn add(&mut self, item: Item)
        ensures days { (minute : ℕ) → minute < 1440 → slice_index self.new minute ≡ with_days minute (slice_index self.old minute) item }
        ensures size { length self.new ≡ 1440 }
    {
        for (minute, days) in self.days.iter_mut().enumerate() {
            if item.range.has_minute(minute as u16) {
                *days |= item.days;
            }
        }
    }
}
