//! The worker: which request it begins, and what it holds after an answer.

ghost use Rattle.std.specs.Prelude.{◌≡◌, IfErr, IfNone, IfOk, IfSome, None, Some, option_copied, true};
ghost use Rattle.fax_core.specs.declared.ask.Ask.TheVariants.{GiveUp};
ghost use Rattle.fax_worker.specs.Acting.{CannotBegin, HasBegun, found_after, reported_after, request_of};
ghost use Rattle.fax_worker.specs.Answer.{answer_of};
ghost use Rattle.fax_worker.specs.Sayable.{AreSteady, CountsPage, CountsReport, IsSayable, IsSteady};
ghost use Rattle.fax_worker.specs.Worker.{IsAnswered, Pending as Request, after_report, found, held_after};

use crate::answer::{Answer, Look};
use crate::grant::{Handed, Held};
use crate::pending::Pending;
use crate::reason::Reason;
use fax_core::{Ask, Ending, Report};
use fax_job::limits::MOST_PAGES;
use fax_job::{Call, Name, Refusal, RequestNumber};
use std::marker::Model;
use thiserror::Error;

/// What a worker may do.
#[derive(Drop)]
pub enum Action {
    /// It asks for work for its modem.
    AsksForWork { modem: Name },
    ReportsCall(Call),
    /// It reports the next page of its grant.
    ReportsPage,
    ReportsOutcome { ending: Ending, reason: Reason },
    /// It gives up the replies to all its numbers so far.
    GivesUp,
}

/// The action can't come now: a request isn't answered yet, the grant doesn't allow it, or the number isn't new.
#[derive(Clone, Copy, Debug, PartialEq, Eq, Error)]
#[error("not now")]
pub struct NotNow;

/// A worker acts for one modem, under its own name as a client.
#[derive(Drop)]
pub struct Worker {
    client: Name,
    last: RequestNumber,
    unanswered: Option<Pending>,
    held: Option<Held>,
}

impl Model for Worker {
    ghost use Rattle.fax_worker.specs.Sayable.{IsSteady};
    ghost use Rattle.fax_worker.specs.Worker.{Worker as Record};

    ghost Value = { Record };

    ghost view = { λ w. record { client = w.client; last = w.last; unanswered = w.unanswered; held = w.held } };

    ghost invariant = { λ w. IsSteady (record { client = w.client; last = w.last; unanswered = w.unanswered; held = w.held }) };
}

impl Worker {
    /// A worker with a new journal: its numbers are above `last`.
    pub fn new(client: Name, last: RequestNumber) -> Worker
        ensures { result ≡ record { client = client; last = last; unanswered = None; held = None } }
    {
        Worker {
            client,
            last,
            unanswered: None,
            held: None,
        }
    }

    /// The worker of a journal that has this, if there can be such a worker: an unanswered report of a page leaves room to
    /// count it.
    pub fn restored(
        client: Name,
        last: RequestNumber,
        unanswered: Option<Pending>,
        held: Option<Held>,
    ) -> Option<Worker>
        ensures restored { IfSome result (λ w.
            w ≡ record { client = client; last = last; unanswered = unanswered; held = held }) }
        ensures none { IfNone result (
            IsSteady (record { client = client; last = last; unanswered = unanswered; held = held }) → ⊥) }
    {
        if !is_steady(&unanswered, &held) {
            return None;
        }
        Some(Worker {
            client,
            last,
            unanswered,
            held,
        })
    }

    /// Its name as a client.
    pub fn client(&self) -> &str
        ensures { result.now ≡ self.now.client }
    {
        self.client.as_str()
    }

    /// The request that isn't answered yet.
    pub fn unanswered(&self) -> Option<&Pending>
        ensures { option_copied result ≡ self.now.unanswered }
    {
        self.unanswered.as_ref()
    }

    /// The grant that it holds.
    pub fn held(&self) -> Option<&Held>
        ensures { option_copied result ≡ self.now.held }
    {
        self.held.as_ref()
    }

    /// The last number that it used.
    pub fn last(&self) -> RequestNumber
        ensures { result ≡ self.now.last }
    {
        self.last
    }

    /// What it is made of: name, last number, unanswered request and grant.
    pub fn into_parts(self) -> (Name, RequestNumber, Option<Pending>, Option<Held>)
        ensures client { result.0 ≡ self.client }
        ensures last { result.1 ≡ self.last }
        ensures unanswered { result.2 ≡ self.unanswered }
        ensures held { result.3 ≡ self.held }
        ensures steady { AreSteady self.unanswered self.held }
    {
        let Worker {
            client,
            last,
            unanswered,
            held,
        } = self;
        (client, last, unanswered, held)
    }

    /// Begins the request of an action under a new number: it is the unanswered one from now on.
    ///
    /// # Errors
    ///
    /// `NotNow` exactly where no request of the action may begin under this number. The worker stays as it was.
    #[tactic(auto, using(crate::proofs::ActingLemmas::begun))]
    pub fn begin(&mut self, action: Action, number: RequestNumber) -> Result<(), NotNow>
        ensures begun { IfOk result (λ _. HasBegun self.old action number self.new) }
        ensures not_now { IfErr result (λ _. CannotBegin self.old action number) }
        ensures unchanged { IfErr result (λ _. self.new ≡ self.old) }
    {
        if self.unanswered.is_some() || number <= self.last {
            return Err(NotNow);
        }
        let Some(ask) = self.request(action) else {
            return Err(NotNow);
        };
        self.last = number;
        self.unanswered = Some(Pending::of(number, ask));
        Ok(())
    }

    /// The request of an action, if it may come now.
    fn request(&self, action: Action) -> Option<Ask>
        ensures ask { result ≡ request_of action self.now.last self.now.held }
        ensures sayable { IfSome result (λ ask. IsSayable ask) }
        ensures counted { IfSome result (λ ask. IfSome self.now.held (λ h. CountsPage ask h)) }
    {
        match (action, &self.held) {
            (Action::AsksForWork { modem }, None) => Some(Ask::Next { modem }),
            (Action::ReportsCall(call), Some(held)) => held.call_report(call),
            (Action::ReportsPage, Some(held)) => held.page_report(),
            (Action::ReportsOutcome { ending, reason }, Some(held)) => {
                held.outcome_report(ending, reason)
            }
            (Action::GivesUp, _) => Some(giving_up(self.last)),
            _ => None,
        }
    }

    /// The unanswered request gets this answer. `look` is what the modem's grant has, if the answer is that the modem is
    /// busy. If nothing is unanswered, the worker stays as it was.
    pub fn answered(&mut self, answer: Answer, look: Look)
        ensures answered { (p : Request) → self.old.unanswered ≡ Some p
            → IsAnswered self.old p.number p.ask (answer_of answer) look self.new }
        ensures unasked { self.old.unanswered ≡ None → self.new ≡ self.old }
    {
        let Some(pending) = self.unanswered.take() else {
            return;
        };
        let held = self.held.take();
        self.held = held_after(pending.ask(), answer, look, held);
    }
}

/// Whether an unanswered report of a page leaves room to count it.
fn is_steady(unanswered: &Option<Pending>, held: &Option<Held>) -> bool
    ensures yes { result ≡ true → AreSteady unanswered.now held.now }
    ensures all { AreSteady unanswered.now held.now → result ≡ true }
{
    match (unanswered, held) {
        (Some(pending), Some(held)) => counts_page(pending.ask(), held),
        _ => true,
    }
}

fn counts_page(ask: &Ask, held: &Held) -> bool
    ensures yes { result ≡ true → CountsPage ask.now held.now }
    ensures all { CountsPage ask.now held.now → result ≡ true }
{
    match ask {
        Ask::OnGrant {
            grant: _,
            report: Report::Page(_),
        } => held.pages() < MOST_PAGES,
        _ => true,
    }
}

/// The request to give up the replies through this number.
fn giving_up(upto: RequestNumber) -> Ask
    ensures ask { result ≡ GiveUp upto }
    ensures sayable { IsSayable result }
{
    let _number = upto.get();
    Ask::GiveUp { upto }
}

/// What is held after the answer to a request.
fn held_after(ask: &Ask, answer: Answer, look: Look, held: Option<Held>) -> Option<Held>
    requires { IfSome held (λ h. CountsPage ask.now h) }
    ensures { result ≡ held_after ask.now (answer_of answer) look held }
{
    match ask {
        Ask::Next { modem: _ } => found(answer, look),
        Ask::OnGrant { grant: _, report } => after_report(report, &answer, held),
        _ => held,
    }
}

/// What is held after the answer to a request for work.
fn found(answer: Answer, look: Look) -> Option<Held>
    ensures { result ≡ found_after (answer_of answer) look }
{
    match answer {
        Answer::Given(handed) => Some(Held::new(handed, None, 0)),
        Answer::Busy { called, handed } => Some(seen(called, handed, look)),
        _ => None,
    }
}

/// The grant that a busy modem holds, with what was reported on it.
fn seen(called: bool, handed: Handed, look: Look) -> Held
    ensures { result ≡ found called handed look }
{
    if called {
        Held::new(handed, look.call(), look.pages())
    } else {
        Held::new(handed, None, 0)
    }
}

/// What is held after the answer to a report.
fn after_report(report: &Report, answer: &Answer, held: Option<Held>) -> Option<Held>
    requires { IfSome held (λ h. CountsReport report.now h) }
    ensures { result ≡ reported_after report.now (answer_of answer.now) held }
{
    match answer.refusal() {
        None => accepted(report, held?),
        Some(Refusal::NoGrant | Refusal::GrantClosed) => None,
        Some(_) => held,
    }
}

/// What is held once a report is accepted.
fn accepted(report: &Report, held: Held) -> Option<Held>
    requires { CountsReport report.now held }
    ensures { result ≡ after_report report.now held }
{
    match report {
        Report::Call(call) => Some(held.with_call(*call)),
        Report::Page(_) => Some(held.with_page()),
        Report::Outcome(_) => None,
    }
}
