//! Grants, as a queue hands them out and as a worker holds them.

ghost use Rattle.std.specs.Prelude.{◌≡◌, ◌≤◌, ◌<◌, ◌+◌, IfSome, Some};
ghost use Rattle.fax_value.specs.Dial.{IsCanonical};
ghost use Rattle.fax_value.specs.Limits.{most_pages};
ghost use Rattle.fax_worker.specs.Acting.{call_report, has_page_left, is_connected, is_done, outcome_report, page_report};
ghost use Rattle.fax_worker.specs.Reading.{handed_from, is_handed};
ghost use Rattle.fax_worker.specs.Sayable.{IsSayable, IsSayableReport};
ghost use Rattle.fax_core.specs.declared.ask.Ask.TheVariants.{OnGrant};
ghost use Rattle.fax_worker.specs.Worker.{held_of, next_page};

use crate::reason::Reason;
use fax_core::{Ask, Ending, Outcome, Report};
use fax_job::limits::{LAST_GRANT, LAST_JOB, MOST_PAGES};
use fax_job::{Call, Dial};
use std::marker::Model;

/// A grant as a queue hands it out: the job's pages that aren't confirmed, and the number to dial.
#[derive(Drop)]
pub struct Handed {
    grant: u32,
    job: u32,
    number: Dial,
    from: u16,
    to: u16,
}

impl Model for Handed {
    ghost use Rattle.fax_core.specs.Reply.{Handed as Record};
    ghost use Rattle.fax_worker.specs.Sayable.{IsHanded};

    ghost Value = { Record };

    ghost view = { λ h. record { grant = h.grant; job = h.job; dial = h.number; from = h.from; to = h.to } };

    ghost invariant = { λ h. IsHanded (record { grant = h.grant; job = h.job; dial = h.number; from = h.from; to = h.to }) };
}

impl Handed {
    /// The grant of these numbers and pages, if a queue could hand it out: there is a page, and nothing is over its
    /// limit.
    pub fn new(grant: u64, job: u64, number: Dial, from: u64, to: u64) -> Option<Handed>
        ensures { result ≡ handed_from grant job number from to }
    {
        let _canonical = number.text();
        if !is_handed(grant, job, from, to) {
            return None;
        }
        Some(Handed {
            grant: grant as u32,
            job: job as u32,
            number,
            from: from as u16,
            to: to as u16,
        })
    }

    /// The grant's number.
    pub fn grant(&self) -> u32
        ensures { result ≡ self.now.grant }
    {
        self.grant
    }
}

fn is_handed(grant: u64, job: u64, from: u64, to: u64) -> bool
    ensures { result ≡ is_handed grant job from to }
{
    1 <= grant
        && grant <= u64::from(LAST_GRANT)
        && 1 <= job
        && job <= u64::from(LAST_JOB)
        && 1 <= from
        && from <= to
        && to <= u64::from(MOST_PAGES)
}

/// A grant that a worker holds, and what the queue has accepted of it.
#[derive(Drop)]
pub struct Held {
    grant: u32,
    job: u32,
    number: Dial,
    first_page: u16,
    last_page: u16,
    call: Option<Call>,
    pages: u16,
}

impl Model for Held {
    ghost use Rattle.fax_worker.specs.Sayable.{IsHeld};
    ghost use Rattle.fax_worker.specs.Worker.{Held as Record};

    ghost Value = { Record };

    ghost view = { λ h. record { grant = h.grant; job = h.job; dial = h.number; first_page = h.first_page; last_page = h.last_page; call = h.call; pages = h.pages } };

    ghost invariant = { λ h. IsHeld (record { grant = h.grant; job = h.job; dial = h.number; first_page = h.first_page; last_page = h.last_page; call = h.call; pages = h.pages }) };
}

impl Held {
    /// The grant, with that call and so many pages reported.
    pub fn new(handed: Handed, call: Option<Call>, pages: u16) -> Held
        requires { pages ≤ most_pages }
        ensures { result ≡ held_of handed call pages }
    {
        let Handed {
            grant,
            job,
            number,
            from,
            to,
        } = handed;
        Held {
            grant,
            job,
            number,
            first_page: from,
            last_page: to,
            call,
            pages,
        }
    }

    /// The grant's number.
    pub fn grant(&self) -> u32
        ensures { result ≡ self.now.grant }
    {
        self.grant
    }

    /// The job's number.
    pub fn job(&self) -> u32
        ensures { result ≡ self.now.job }
    {
        self.job
    }

    /// The number to dial, in its canonical form.
    pub fn number(&self) -> &str
        ensures number { result.now ≡ self.now.dial }
        ensures canonical { IsCanonical result.now }
    {
        self.number.text()
    }

    /// The first page of the grant.
    pub fn first_page(&self) -> u16
        ensures { result ≡ self.now.first_page }
    {
        self.first_page
    }

    /// The last page of the grant.
    pub fn last_page(&self) -> u16
        ensures { result ≡ self.now.last_page }
    {
        self.last_page
    }

    /// How the call went, once it is reported.
    pub fn call(&self) -> Option<Call>
        ensures { result ≡ self.now.call }
    {
        self.call
    }

    /// How many pages are reported.
    pub fn pages(&self) -> u16
        ensures { result ≡ self.now.pages }
    {
        self.pages
    }

    /// The first page that isn't reported.
    pub fn next_page(&self) -> u16
        ensures { result ≡ next_page self.now }
    {
        self.first_page + self.pages
    }

    /// Whether a page isn't reported.
    pub fn has_page_left(&self) -> bool
        ensures { result ≡ has_page_left self.now }
    {
        self.next_page() <= self.last_page
    }

    /// The report of how the call went, if none was made.
    pub(crate) fn call_report(&self, call: Call) -> Option<Ask>
        ensures ask { result ≡ call_report self.now call }
        ensures sayable { IfSome result (λ ask. IsSayable ask) }
    {
        if self.call.is_some() {
            return None;
        }
        Some(self.report(Report::Call(call)))
    }

    /// The report of the next page, on a connected call while one is left.
    pub(crate) fn page_report(&self) -> Option<Ask>
        ensures ask { result ≡ page_report self.now }
        ensures sayable { IfSome result (λ ask. IsSayable ask) }
        // The page can be counted.
        ensures counted { IfSome result (λ _. self.now.pages < most_pages) }
    {
        if !is_connected(self.call) || !self.has_page_left() {
            return None;
        }
        Some(self.report(Report::Page(self.next_page())))
    }

    /// The report of the outcome, with the call and the pages as they were reported. It isn't `Done` while a page is
    /// left.
    pub(crate) fn outcome_report(&self, ending: Ending, reason: Reason) -> Option<Ask>
        ensures ask { result ≡ outcome_report self.now ending reason }
        ensures sayable { IfSome result (λ ask. IsSayable ask) }
    {
        if is_done(ending) && self.has_page_left() {
            return None;
        }
        Some(self.report(Report::Outcome(Outcome {
            dialed: self.call.is_some(),
            pages: self.pages,
            ending,
            reason: reason.into_status(),
        })))
    }

    /// A report on this grant.
    fn report(&self, report: Report) -> Ask
        ensures ask { result ≡ OnGrant self.now.grant report }
        ensures sayable { IsSayableReport report → IsSayable result }
    {
        Ask::OnGrant {
            grant: u64::from(self.grant),
            report,
        }
    }

    /// The grant with that call reported.
    pub(crate) fn with_call(self, call: Call) -> Held
        ensures { result ≡ record self { call = Some call } }
    {
        Held {
            call: Some(call),
            ..self
        }
    }

    /// The grant with one more page reported.
    pub(crate) fn with_page(self) -> Held
        requires { self.pages < most_pages }
        ensures { result ≡ record self { pages = self.pages + 1 } }
    {
        Held {
            pages: self.pages + 1,
            ..self
        }
    }
}

fn is_connected(call: Option<Call>) -> bool
    ensures { result ≡ is_connected call }
{
    match call {
        Some(Call::Connected) => true,
        _ => false,
    }
}

fn is_done(ending: Ending) -> bool
    ensures { result ≡ is_done ending }
{
    match ending {
        Ending::Done => true,
        Ending::Retry | Ending::Fail => false,
    }
}
