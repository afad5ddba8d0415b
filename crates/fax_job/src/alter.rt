//! Alterations of held jobs.

ghost use Rattle.std.specs.Prelude.{◌≡◌};
ghost use Rattle.fax_job.specs.Alter.{is_alterable};

use crate::lines::Lines;
use crate::order::OrderFault;
use crate::tag::is_among;
use crate::values::{
    jobtag_of, killtime_of, maxdials_of, maxtries_of, modem_of, priority_of, tts_of,
};
use fax_value::{JobTag, Moment, Name};
use std::alloc::Global;

/// What is to change in a job. `None` changes nothing.
#[derive(Drop)]
pub struct Alter {
    pub modem: Option<Name>,
    pub jobtag: Option<JobTag>,
    /// The new time to send; within it, none is the moment of the request.
    pub tts: Option<Option<Moment>>,
    /// The new kill time; within it, none is no kill time.
    pub killtime: Option<Option<Moment>>,
    pub priority: Option<u8>,
    /// From 1 to 1000.
    pub maxtries: Option<u16>,
    /// From 1 to 1000.
    pub maxdials: Option<u16>,
}

/// The tags that can be altered.
static ALTERABLE_TAGS: [&str; 7] = [
    "modem", "jobtag", "tts", "killtime", "priority", "maxtries", "maxdials",
];

impl Lines {
    ghost use Rattle.std.specs.Prelude.{◌≡◌, codes};
    ghost use Rattle.std.specs.List.{list_all};
    ghost use Rattle.fax_value.specs.Gives.{Gives};
    ghost use Rattle.fax_job.specs.Alter.{is_alterable, if_there, changes_of, alter_of};
    ghost use Rattle.fax_job.specs.Order.{is_no_memory, modem_in, jobtag_in, tts_in, killtime_in, priority_in, maxtries_in, maxdials_in};
    ghost use Rattle.fax_job.specs.Pair.{value_of};

    /// The alteration that the lines state. A tag that occurs with an empty value sets what a
    /// submission without it gives.
    ///
    /// # Errors
    ///
    /// `NotAlterable` where a tag can't be altered; else the fault of the first tag that has one, in the
    /// order modem, jobtag, tts, killtime, priority, maxtries, maxdials.
    #[tactic(auto, unfolding(crate::specs::Alter::alter_of))]
    pub fn to_alter(&self, alloc: Global) -> Result<Alter, OrderFault>
        ensures { Gives is_no_memory result (alter_of self.now) }
    {
        if self.is_alterable() {
            self.changes(alloc)
        } else {
            Err(OrderFault::NotAlterable)
        }
    }

    #[tactic(auto, unfolding(crate::specs::Alter::changes_of))]
    fn changes(&self, alloc: Global) -> Result<Alter, OrderFault>
        ensures { Gives is_no_memory result (changes_of self.now) }
    {
        let modem = self.new_modem(alloc)?;
        let jobtag = self.new_jobtag(alloc)?;
        let tts = self.new_tts()?;
        let killtime = self.new_killtime()?;
        let priority = self.new_priority()?;
        let maxtries = self.new_maxtries()?;
        let maxdials = self.new_maxdials()?;
        Ok(Alter {
            modem,
            jobtag,
            tts,
            killtime,
            priority,
            maxtries,
            maxdials,
        })
    }

    fn new_modem(&self, alloc: Global) -> Result<Option<Name>, OrderFault>
        ensures { Gives is_no_memory result (if_there modem_in (value_of (codes "modem") self.now)) }
    {
        match self.get("modem") {
            Some(value) => Ok(Some(modem_of(alloc, value)?)),
            None => Ok(None),
        }
    }

    fn new_jobtag(&self, alloc: Global) -> Result<Option<JobTag>, OrderFault>
        ensures { Gives is_no_memory result (if_there jobtag_in (value_of (codes "jobtag") self.now)) }
    {
        match self.get("jobtag") {
            Some(value) => Ok(Some(jobtag_of(alloc, value)?)),
            None => Ok(None),
        }
    }

    fn new_tts(&self) -> Result<Option<Option<Moment>>, OrderFault>
        ensures { result ≡ if_there tts_in (value_of (codes "tts") self.now) }
    {
        match self.get("tts") {
            Some(value) => Ok(Some(tts_of(value)?)),
            None => Ok(None),
        }
    }

    fn new_killtime(&self) -> Result<Option<Option<Moment>>, OrderFault>
        ensures { result ≡ if_there killtime_in (value_of (codes "killtime") self.now) }
    {
        match self.get("killtime") {
            Some(value) => Ok(Some(killtime_of(value)?)),
            None => Ok(None),
        }
    }

    fn new_priority(&self) -> Result<Option<u8>, OrderFault>
        ensures { result ≡ if_there priority_in (value_of (codes "priority") self.now) }
    {
        match self.get("priority") {
            Some(value) => Ok(Some(priority_of(value)?)),
            None => Ok(None),
        }
    }

    fn new_maxtries(&self) -> Result<Option<u16>, OrderFault>
        ensures { result ≡ if_there maxtries_in (value_of (codes "maxtries") self.now) }
    {
        match self.get("maxtries") {
            Some(value) => Ok(Some(maxtries_of(value)?)),
            None => Ok(None),
        }
    }

    fn new_maxdials(&self) -> Result<Option<u16>, OrderFault>
        ensures { result ≡ if_there maxdials_in (value_of (codes "maxdials") self.now) }
    {
        match self.get("maxdials") {
            Some(value) => Ok(Some(maxdials_of(value)?)),
            None => Ok(None),
        }
    }

    fn is_alterable(&self) -> bool
        ensures { result ≡ list_all (λ p. is_alterable p.tag) self.now }
    {
        for index in 0..self.len() {
            if !is_alterable_tag(self.line(index).tag()) {
                return false;
            }
        }
        true
    }
}

fn is_alterable_tag(tag: &str) -> bool
    ensures { result ≡ is_alterable tag.now }
{
    is_among(&ALTERABLE_TAGS, tag)
}
