//! Orders, what a submission asks for.

use crate::lines::Lines;
use crate::tag::is_known;
use crate::values::{
    dial_of, jobtag_of, killtime_of, maxdials_of, maxtries_of, modem_of, priority_of, totpages_of,
    tts_of,
};
use fax_value::{Dial, JobTag, Moment, Name};
use std::alloc::{AllocError, Global};
use thiserror::Error;

/// What a submission asks for.
#[derive(Drop)]
pub struct Order {
    pub dial: Dial,
    /// A modem's name, the name of a class of modems, or `any`.
    pub modem: Name,
    pub jobtag: JobTag,
    /// The time to send; none is the moment of submission.
    pub tts: Option<Moment>,
    pub killtime: Option<Moment>,
    /// Lower goes first.
    pub priority: u8,
    /// From 1 to 9999.
    pub totpages: u16,
    /// From 1 to 1000.
    pub maxtries: u16,
    /// From 1 to 1000.
    pub maxdials: u16,
    /// The lines whose tags a job description doesn't know.
    pub extra: Lines,
}

/// What is wrong with the values of an order, of an alteration or of an import.
#[derive(Clone, Copy, Debug, PartialEq, Eq, Error)]
pub enum OrderFault {
    #[error("no number")]
    NoNumber,
    #[error("a bad number")]
    BadDial,
    #[error("a bad modem")]
    BadModem,
    #[error("a bad job tag")]
    BadJobtag,
    #[error("a bad time to send")]
    BadTts,
    #[error("a bad kill time")]
    BadKilltime,
    #[error("a bad priority")]
    BadPriority,
    #[error("no pages")]
    NoPages,
    #[error("a bad number of pages")]
    BadPages,
    #[error("a bad limit of tries")]
    BadMaxtries,
    #[error("a bad limit of dials")]
    BadMaxdials,
    #[error("a tag that can't be altered")]
    NotAlterable,
    #[error("a bad number of pages sent")]
    BadNpages,
    #[error("a bad number of tries in a row")]
    BadNtries,
    #[error("a bad number of tries")]
    BadTottries,
    #[error("a bad number of dials in a row")]
    BadNdials,
    #[error("a bad number of dials")]
    BadTotdials,
    #[error("a bad state")]
    BadState,
    #[error("out of memory")]
    NoMemory,
}

impl OrderFault {
    ghost use Rattle.std.specs.Prelude.{◌≡◌};
    ghost use Rattle.fax_job.specs.Refusal.{order_word};

    /// The word for it in a reply.
    pub fn word(self) -> &'static str
        ensures { result.now ≡ order_word self }
    {
        match self {
            OrderFault::NoNumber => "no-number",
            OrderFault::BadDial => "bad-dial",
            OrderFault::BadModem => "bad-modem",
            OrderFault::BadJobtag => "bad-jobtag",
            OrderFault::BadTts => "bad-tts",
            OrderFault::BadKilltime => "bad-killtime",
            OrderFault::BadPriority => "bad-priority",
            OrderFault::NoPages => "no-pages",
            OrderFault::BadPages => "bad-pages",
            OrderFault::BadMaxtries => "bad-maxtries",
            OrderFault::BadMaxdials => "bad-maxdials",
            OrderFault::NotAlterable => "not-alterable",
            OrderFault::BadNpages => "bad-npages",
            OrderFault::BadNtries => "bad-ntries",
            OrderFault::BadTottries => "bad-tottries",
            OrderFault::BadNdials => "bad-ndials",
            OrderFault::BadTotdials => "bad-totdials",
            OrderFault::BadState => "bad-state",
            OrderFault::NoMemory => "no-memory",
        }
    }
}

impl From<AllocError> for OrderFault {
    ghost use Rattle.std.specs.Prelude.{◌≡◌};
    ghost use Rattle.fax_job.specs.declared.order.OrderFault.TheVariants.{NoMemory};

    ghost from_gives = { λ _ fault. fault ≡ NoMemory };

    fn from(_error: AllocError) -> OrderFault {
        OrderFault::NoMemory
    }
}

impl Lines {
    ghost use Rattle.std.specs.Prelude.{◌≡◌, IfOk};
    ghost use Rattle.fax_value.specs.Gives.{Gives};
    ghost use Rattle.fax_job.specs.Order.{is_no_memory, value_or_none, order_of};
    ghost use Rattle.fax_job.specs.Pair.{extra_of};

    /// The order that the lines state. The tags are looked at in the order number, modem, jobtag, tts,
    /// killtime, priority, totpages, maxtries, maxdials, whatever the order of the lines.
    ///
    /// # Errors
    ///
    /// The fault of the first tag that has one.
    #[tactic(auto, unfolding(crate::specs::Order::order_of))]
    pub fn to_order(&self, alloc: Global) -> Result<Order, OrderFault>
        ensures { Gives is_no_memory result (order_of self.now) }
    {
        let dial = dial_of(alloc, self.value("number"))?;
        let modem = modem_of(alloc, self.value("modem"))?;
        let jobtag = jobtag_of(alloc, self.value("jobtag"))?;
        let tts = tts_of(self.value("tts"))?;
        let killtime = killtime_of(self.value("killtime"))?;
        let priority = priority_of(self.value("priority"))?;
        let totpages = totpages_of(self.value("totpages"))?;
        let maxtries = maxtries_of(self.value("maxtries"))?;
        let maxdials = maxdials_of(self.value("maxdials"))?;
        let extra = self.extra(alloc)?;
        Ok(Order {
            dial,
            modem,
            jobtag,
            tts,
            killtime,
            priority,
            totpages,
            maxtries,
            maxdials,
            extra,
        })
    }

    /// The value of a tag; the empty text where it doesn't occur.
    pub(crate) fn value(&self, tag: &str) -> &str
        ensures { result.now ≡ value_or_none self.now tag.now }
    {
        self.get(tag).unwrap_or("")
    }

    /// The lines whose tags aren't known, in their order.
    #[tactic(auto, using(crate::proofs::ListLemmas::extra_next, crate::proofs::ListLemmas::extra_over))]
    fn extra(&self, alloc: Global) -> Result<Lines, AllocError>
        ensures { IfOk result (λ extra. extra ≡ extra_of self.now) }
    {
        let mut extra = Lines::new(alloc);
        let text = self.as_text();
        for index in 0..text.len() {
            let line = text.line(index);
            if !is_known(line.tag()) {
                extra.push(line.tag(), line.value())?;
            }
        }
        Ok(extra)
    }
}
