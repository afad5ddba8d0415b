//! Submissions.

ghost use Rattle.std.specs.Prelude.{◌≡◌, ℕ, Bool, false, Ok, IfOk, IsOk, IsSome};
ghost use Rattle.fax_ask.specs.Detail.{has_detail};
ghost use Rattle.fax_ask.specs.Response.{refused_response};
ghost use Rattle.fax_core.specs.Ageing.{aged};
ghost use Rattle.fax_core.specs.Decisions.{submit};
ghost use Rattle.fax_core.specs.Machine.{submitted, keys_of_rule};
ghost use Rattle.fax_core.specs.Queue.{Queue};
ghost use Rattle.fax_core.specs.Settings.{Rule as MachineRule};
ghost use Rattle.fax_core.specs.Job.{job_of};
ghost use Rattle.fax_core.specs.Sound.{Sound};
ghost use Rattle.fax_core.specs.Submission.{rule_of};
ghost use Rattle.fax_tables.specs.Meta.{meta_of};
ghost use Rattle.fax_decide.specs.Decision.{Decides};
ghost use Rattle.fax_decide.specs.Fault.{OnlyNoAnswer, OrNoAnswer};
ghost use Rattle.fax_decide.specs.Read.{IsReadOrder};
ghost use Rattle.fax_decide.specs.Settings.{machine_rule, rule_for};

use crate::decision::{Decision, answered, take};
use crate::effect::Effect;
use crate::fault::Fault;
use crate::office::Office;
use fax_ask::{Answer, Detail, Reply};
use fax_core::submit;
use fax_dest::Rule;
use fax_job::{Job, Moment, Order, Refusal};
use fax_store::Meta;
use std::alloc::Global;

/// Decides a submission at `t`, by the rule of its number. `meta` has the number of its job.
pub(crate) fn decide_submission(
    office: &Office,
    alloc: Global,
    order: Order,
    meta: &Meta,
    t: Moment,
) -> Result<Decision, Fault>
    ensures { (m : Queue) → Sound m → meta.now ≡ meta_of m → IfOk result (Decides
        (submitted (aged t m) (machine_rule office.now.setup (rule_for office.now.controls order.dial))
        (submit order (machine_rule office.now.setup (rule_for office.now.controls order.dial))
        m.next_job office.now.setup.max_jobs t)) m t) × (IsReadOrder order → OnlyNoAnswer result) }
{
    let rule = office.rule_of(alloc, &order.dial)?;
    match submit(order, rule, meta.next_job, office.setup.max_jobs(), t) {
        Ok(job) => taken(alloc, job),
        Err(refusal) => refused(alloc, refusal, rule),
    }
}

/// The job is new, and its number is told.
fn taken(alloc: Global, job: Job) -> Result<Decision, Fault>
    ensures { (m : Queue) (t : ℕ) (rule : MachineRule) → Sound m → job.job ≡ m.next_job
        → OrNoAnswer result (Decides (submitted (aged t m) rule (Ok (job_of job))) m t) }
{
    let answer = Answer::Submitted {
        job: job.fields().job,
    };
    take(Effect::NewJob(job), answered(alloc, &answer))
}

/// A submission or an import is refused: a rejected one is told the notice of its rule. Where the job would be no lawful
/// record, which what was read never gives, nothing is decided.
pub(crate) fn refused(alloc: Global, refusal: Refusal, rule: &Rule) -> Result<Decision, Fault>
    requires notice { refusal ≡ Refusal.Rejected → IsSome rule.now.notice }
    requires plain { ¬ (refusal ≡ Refusal.Rejected) → has_detail refusal ≡ false }
    ensures reply { (hours : ℕ → Bool) → IfOk result (λ decision. decision
        ≡ Decision.Refused (refused_response refusal (keys_of_rule refusal (rule_of rule.now hours)))) }
    ensures recorded { IsOk result → ¬ (refusal ≡ Refusal.Unavailable) }
    ensures made { ¬ (refusal ≡ Refusal.Rejected) → ¬ (refusal ≡ Refusal.Unavailable) → IsOk result }
    ensures cause { ¬ (refusal ≡ Refusal.Unavailable) → OnlyNoAnswer result }
{
    match refusal {
        Refusal::Unavailable => Err(Fault::Strange),
        Refusal::Rejected => rejected(alloc, rule),
        _ => Ok(Decision::Refused(Reply::refused(refusal))),
    }
}

/// A submission or an import is rejected, and told the notice of its rule.
fn rejected(alloc: Global, rule: &Rule) -> Result<Decision, Fault>
    requires { IsSome rule.now.notice }
    ensures { (hours : ℕ → Bool) → OrNoAnswer result (λ decision. decision
        ≡ Decision.Refused (refused_response Refusal.Rejected (keys_of_rule Refusal.Rejected (rule_of rule.now hours)))) }
{
    let notice = rule.notice.as_ref().unwrap();
    let detail = Detail::Rejected {
        notice: notice.as_str(),
    };
    Ok(Decision::Refused(Reply::refused_with(alloc, &detail)?))
}
