//! What a worker's command is called with.

ghost use Rattle.std.specs.Prelude.{◌≡◌, IsSome, Some, true};
ghost use Rattle.fax_worker.specs.Worker.{Pending};
ghost use Rattle.fax_client.specs.Step.{Asks, IsOwn, Reports, action_of, is_next, is_show};
ghost use Rattle.fax_client.specs.Stop.{step_status};

use crate::look::call_named;
use crate::reason::reason_of;
use fax_core::{Ask, Ending as Outcome, Report};
use fax_ending::{Ending, FaultLine, Place};
use fax_job::{Call, Name, TextFault};
use fax_text::WorkerPlan;
use fax_worker::{Action, Reason, Worker};
use std::alloc::{AllocError, Global};

/// What a worker is to do.
#[derive(Drop)]
pub enum Step {
    /// Ask for work for the modem, unless a grant is held.
    Next(Name),
    /// Report how the call went.
    Call(Call),
    /// Report the next page as confirmed.
    Page,
    /// Report the outcome.
    End(Outcome, Reason),
    /// Show what the journal has.
    Show,
}

/// Why words are no step.
#[derive(Clone, Copy, Debug, PartialEq, Eq)]
pub enum StepFault {
    /// `next` wants a modem, whose name is a name.
    Modem,
    /// No such action, or not with these words.
    Action,
    NoMemory,
}

impl From<AllocError> for StepFault {
    fn from(_: AllocError) -> StepFault {
        StepFault::NoMemory
    }
}

impl StepFault {
    /// How the command ends.
    pub fn ending(self) -> Ending<'static>
        ensures { result.status ≡ step_status self }
    {
        match self {
            StepFault::Modem => Ending::usage(FaultLine::of("faxqd: bad modem", Place::Nowhere)),
            StepFault::Action => Ending::usage(FaultLine::of("faxqd: bad action", Place::Nowhere)),
            StepFault::NoMemory => Ending::failed("faxqd: no memory"),
        }
    }
}

/// The step that the words of `faxqd worker` ask for. No clause speaks of the words: `checks/run journals.words` tries them.
///
/// # Errors
///
/// Which of them is at fault, or out of memory.
pub fn read_step(alloc: Global, plan: &WorkerPlan<'_>) -> Result<Step, StepFault> {
    match plan.words.as_slice() {
        ["next"] => Ok(Step::Next(modem_of(alloc, plan.modem)?)),
        ["call", word] => Ok(Step::Call(call_named(word).ok_or(StepFault::Action)?)),
        ["page"] => Ok(Step::Page),
        ["end", word] => Ok(Step::End(outcome_named(word)?, Reason::none())),
        ["end", word, text] => Ok(Step::End(outcome_named(word)?, reason_of(alloc, text)?)),
        ["show"] => Ok(Step::Show),
        _ => Err(StepFault::Action),
    }
}

fn modem_of(alloc: Global, modem: Option<&str>) -> Result<Name, StepFault> {
    let Some(modem) = modem else {
        return Err(StepFault::Modem);
    };
    match Name::read(alloc, modem) {
        Ok(name) => Ok(name),
        Err(TextFault::Bad) => Err(StepFault::Modem),
        Err(TextFault::NoMemory) => Err(StepFault::NoMemory),
    }
}

fn outcome_named(word: &str) -> Result<Outcome, StepFault> {
    match word {
        "done" => Ok(Outcome::Done),
        "retry" => Ok(Outcome::Retry),
        "fail" => Ok(Outcome::Fail),
        _ => Err(StepFault::Action),
    }
}

impl Step {
    /// The modem that asks for work.
    pub(crate) fn modem(&self) -> Option<&Name> {
        match self {
            Step::Next(modem) => Some(modem),
            _ => None,
        }
    }

    /// Whether the worker is that of the modem that asks for work.
    pub(crate) fn is_of(&self, worker: &Worker) -> bool
        ensures { result ≡ true → IsOwn self.now worker.now.client }
    {
        match self {
            Step::Next(modem) => modem.as_str() == worker.client(),
            _ => true,
        }
    }

    pub(crate) fn is_next(&self) -> bool
        ensures { result ≡ is_next self.now }
    {
        matches!(self, Step::Next(_))
    }

    /// Whether nothing is asked.
    pub(crate) fn is_show(&self) -> bool
        ensures { result ≡ is_show self.now }
    {
        matches!(self, Step::Show)
    }

    /// Whether nothing is left to do: `next` asks for no work while a grant is held.
    pub(crate) fn is_done(&self, worker: &Worker) -> bool
        ensures next { result ≡ true → is_next self.now ≡ true }
        ensures held { result ≡ true → IsSome worker.now.held }
    {
        self.is_next() && worker.held().is_some()
    }

    /// Whether the unanswered request is this step's.
    pub(crate) fn is_begun(&self, worker: &Worker) -> bool
        ensures { result ≡ true → (p : Pending) × (worker.now.unanswered ≡ Some p) × Asks self.now p.ask }
    {
        match worker.unanswered() {
            Some(pending) => self.asks(pending.ask()),
            None => false,
        }
    }

    fn asks(&self, ask: &Ask) -> bool
        ensures { result ≡ true → Asks self.now ask.now }
    {
        match (self, ask) {
            (Step::Next(_), Ask::Next { modem: _ }) => true,
            (_, Ask::OnGrant { grant: _, report }) => self.reports(report),
            _ => false,
        }
    }

    fn reports(&self, report: &Report) -> bool
        ensures { result ≡ true → Reports self.now report.now }
    {
        match (self, report) {
            (Step::Call(call), Report::Call(said)) => *call == *said,
            (Step::Page, Report::Page(_)) => true,
            (Step::End(ending, _), Report::Outcome(outcome)) => *ending == outcome.ending,
            _ => false,
        }
    }

    /// What the worker does for it.
    pub(crate) fn action(self) -> Option<Action>
        ensures { result ≡ action_of self }
    {
        match self {
            Step::Next(modem) => Some(Action::AsksForWork { modem }),
            Step::Call(call) => Some(Action::ReportsCall(call)),
            Step::Page => Some(Action::ReportsPage),
            Step::End(ending, reason) => Some(Action::ReportsOutcome { ending, reason }),
            Step::Show => None,
        }
    }
}
