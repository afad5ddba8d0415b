//! Requests that aren't answered yet.

ghost use Rattle.std.specs.Prelude.{◌≡◌, IfNone, IfSome, true};
ghost use Rattle.fax_worker.specs.Sayable.{IsNumbered, IsSayable, IsSayableOutcome, IsSayableReport};

use crate::reason::is_reason;
use fax_core::{Ask, Outcome, Report};
use fax_job::limits::MOST_PAGES;
use fax_job::{RequestNumber, is_name};
use std::marker::Model;

/// A worker's request under its number. [`Ask`] is what the queue reads, so a request that was kept as path and body is
/// made again by the queue's own reader.
#[derive(Drop)]
pub struct Pending {
    number: RequestNumber,
    ask: Ask,
}

impl Model for Pending {
    ghost use Rattle.fax_worker.specs.Sayable.{IsSayable};
    ghost use Rattle.fax_worker.specs.Worker.{Pending as Record};

    ghost Value = { Record };

    ghost view = { λ p. record { number = p.number; ask = p.ask } };

    ghost invariant = { λ p. IsSayable p.ask };
}

impl Pending {
    /// The request under this number, if a worker can say it: it asks for work, reports on a grant, or gives up replies.
    pub fn new(number: RequestNumber, ask: Ask) -> Option<Pending>
        ensures request { IfSome result (λ p. p ≡ record { number = number; ask = ask }) }
        ensures sayable { IfSome result (λ _. IsSayable ask) }
        ensures none { IfNone result (IsSayable ask → ⊥) }
    {
        if is_sayable(&ask) {
            Some(Pending { number, ask })
        } else {
            None
        }
    }

    /// The request under this number.
    pub(crate) fn of(number: RequestNumber, ask: Ask) -> Pending
        requires { IsSayable ask }
        ensures { result ≡ record { number = number; ask = ask } }
    {
        Pending { number, ask }
    }

    /// The request's number.
    pub fn number(&self) -> RequestNumber
        ensures { result ≡ self.now.number }
    {
        self.number
    }

    /// What is asked.
    pub fn ask(&self) -> &Ask
        ensures ask { result.now ≡ self.now.ask }
        ensures sayable { IsSayable result.now }
    {
        &self.ask
    }
}

fn is_sayable(ask: &Ask) -> bool
    ensures yes { result ≡ true → IsSayable ask.now }
    ensures all { IsSayable ask.now → result ≡ true }
{
    match ask {
        Ask::Next { modem } => is_name(modem.as_str().as_bytes()),
        Ask::OnGrant { grant, report } => is_numbered(*grant) && is_sayable_report(report),
        Ask::GiveUp { upto } => is_numbered(upto.get()),
        _ => false,
    }
}

/// Whether 1 to 18 digits write it, the first not 0.
fn is_numbered(number: u64) -> bool
    ensures yes { result ≡ true → IsNumbered number }
    ensures all { IsNumbered number → result ≡ true }
{
    RequestNumber::new(number).is_some()
}

fn is_sayable_report(report: &Report) -> bool
    ensures yes { result ≡ true → IsSayableReport report.now }
    ensures all { IsSayableReport report.now → result ≡ true }
{
    match report {
        Report::Call(_) => true,
        Report::Page(page) => 1 <= *page && *page <= MOST_PAGES,
        Report::Outcome(outcome) => is_sayable_outcome(outcome),
    }
}

fn is_sayable_outcome(outcome: &Outcome) -> bool
    ensures yes { result ≡ true → IsSayableOutcome outcome.now }
    ensures all { IsSayableOutcome outcome.now → result ≡ true }
{
    outcome.pages <= MOST_PAGES && is_reason(outcome.reason.text().as_bytes())
}
