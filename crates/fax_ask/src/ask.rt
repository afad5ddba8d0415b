//! What is asked for, from method, path and body.

ghost use Rattle.std.specs.Prelude.{◌≡◌, IfOk, IfErr};
ghost use Rattle.fax_job.specs.Alter.{alter_of};
ghost use Rattle.fax_job.specs.Import.{import_of};
ghost use Rattle.fax_job.specs.Order.{order_of};
ghost use Rattle.fax_core.specs.Ask.{HasCounts, HasLimits as HasOrderLimits};
ghost use Rattle.fax_ask.specs.Ask.{Asks, AsksOfJob, HasLimits, States, IsActionRefusal, IsAsk, IsBodyRefusal, IsLawful, IsLawfulOn, IsLinesRefusal, IsRefused};

use crate::method::Method;
use crate::report::{read_before, read_report, read_upto};
use crate::request::{Action, Request};
use crate::routes::Routes;
use crate::view::View;
use fax_core::{Ask as Step, JobAsk};
use fax_job::{Alter, Import, Order, Refusal};
use fax_lines::read_lines;
use std::alloc::Global;

/// What is asked for.
#[derive(Drop)]
pub enum Ask {
    /// A step of the queue. Numbers of jobs and grants are as they were written: from 1, and of 18
    /// digits at most.
    Step(Step),
    /// A job, or the listing of all.
    View(View),
}

impl Routes {
    /// What a method, a path and a body ask for.
    ///
    /// # Errors
    ///
    /// `NoRoute` exactly where method and path name no request; else `BadBody` with the body's first
    /// fault, one of a line before one of what the lines state; `Unavailable` where memory runs out.
    /// A body that the request doesn't need isn't looked at.
    pub fn read_ask(
        &self,
        alloc: Global,
        method: Method,
        path: &str,
        body: &[u8],
    ) -> Result<Ask, Refusal>
        ensures ask { IfOk result (λ ask. IsAsk method path.now body.now ask) }
        ensures refused { IfErr result (IsRefused method path.now body.now) }
        // What the queue relies on: pages, tries and dials are there, and limits are kept.
        ensures lawful { IfOk result (λ ask. IsLawful ask) }
    {
        match self.request(method, path) {
            Some(request) => read_body(alloc, request, body),
            None => Err(Refusal::NoRoute),
        }
    }
}

/// What a request with this body asks for.
fn read_body(alloc: Global, request: Request<'_>, body: &[u8]) -> Result<Ask, Refusal>
    ensures ask { IfOk result (λ ask. Asks request.entry body.now ask) }
    ensures refused { IfErr result (IsBodyRefusal request.entry body.now) }
    ensures lawful { IfOk result (λ ask. IsLawful ask) }
{
    let step = match request {
        Request::Show(view) => return Ok(Ask::View(view)),
        Request::Submit => Step::Submission(read_order(alloc, body)?),
        Request::Import => Step::Bring(read_import(alloc, body)?),
        Request::OnJob { job, action } => Step::OnJob {
            job,
            ask: read_action(alloc, action, body)?,
        },
        Request::Mark { modem, down } => Step::Mark {
            modem: modem.keep(alloc)?,
            down,
        },
        Request::Next { modem } => Step::Next {
            modem: modem.keep(alloc)?,
        },
        Request::OnGrant { grant, kind } => Step::OnGrant {
            grant,
            report: read_report(alloc, kind, body)?,
        },
        Request::Floor => Step::GiveUp {
            upto: read_upto(alloc, body)?,
        },
        Request::Purge => Step::Purge {
            before: read_before(alloc, body)?,
        },
    };
    Ok(Ask::Step(step))
}

/// What a client asks of a job with this body.
fn read_action(alloc: Global, action: Action, body: &[u8]) -> Result<JobAsk, Refusal>
    ensures ask { IfOk result (AsksOfJob action body.now) }
    ensures refused { IfErr result (IsActionRefusal action body.now) }
    ensures lawful { IfOk result (λ ask. IsLawfulOn ask) }
{
    match action {
        Action::Suspend => Ok(JobAsk::Suspend),
        Action::Resume => Ok(JobAsk::Resume),
        Action::Kill => Ok(JobAsk::Kill),
        Action::Alter => Ok(JobAsk::Alter(read_alter(alloc, body)?)),
    }
}

/// The order that a body of key lines states.
fn read_order(alloc: Global, body: &[u8]) -> Result<Order, Refusal>
    ensures order { IfOk result (States order_of body.now) }
    ensures refused { IfErr result (IsLinesRefusal order_of body.now) }
    ensures limits { IfOk result HasOrderLimits }
{
    let lines = read_lines(alloc, body)?;
    Ok(lines.to_order(alloc)?)
}

/// The import that a body of key lines states.
fn read_import(alloc: Global, body: &[u8]) -> Result<Import, Refusal>
    ensures import { IfOk result (States import_of body.now) }
    ensures refused { IfErr result (IsLinesRefusal import_of body.now) }
    ensures counts { IfOk result HasCounts }
{
    let lines = read_lines(alloc, body)?;
    Ok(lines.to_import(alloc)?)
}

/// The alteration that a body of key lines states.
fn read_alter(alloc: Global, body: &[u8]) -> Result<Alter, Refusal>
    ensures alter { IfOk result (States alter_of body.now) }
    ensures refused { IfErr result (IsLinesRefusal alter_of body.now) }
    ensures limits { IfOk result HasLimits }
{
    let lines = read_lines(alloc, body)?;
    Ok(lines.to_alter(alloc)?)
}
