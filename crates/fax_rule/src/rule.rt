//! Rules of destinations.

use crate::notice::Notice;
use fax_hours::Hours;

/// What holds for the numbers that a pattern matches.
#[derive(Drop)]
pub struct Rule {
    /// Calls at a time to one number, from 1 to 1000.
    pub calls: u16,
    /// The most pages of a job, from 1 to 9999.
    pub pages: Option<u16>,
    /// When calls may be made.
    pub hours: Hours,
    /// Why no job is taken.
    pub notice: Option<Notice>,
}

impl Rule {
    ghost use Rattle.std.specs.Prelude.{◌≡◌};
    ghost use Rattle.fax_rule.specs.Rule.{default_rule};

    /// What holds without a rule.
    pub fn default_rule() -> Rule
        ensures { result ≡ default_rule }
    {
        Rule {
            calls: 1,
            pages: None,
            hours: Hours::any(),
            notice: None,
        }
    }
}
