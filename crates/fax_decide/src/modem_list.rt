//! The modems, as a client sees them.

ghost use Rattle.std.specs.Prelude.{◌≡◌, ◌++◌, ℕ, IfOk, OnOk, Some, flat_map};
ghost use Rattle.fax_ask.specs.Answer.{Shown};
ghost use Rattle.fax_ask.specs.Response.{accepted_response};
ghost use Rattle.fax_ask.specs.declared.view.View.TheVariants.{Modems as AllModems};
ghost use Rattle.fax_core.specs.Ageing.{aged};
ghost use Rattle.fax_core.specs.Sound.{Sound};
ghost use Rattle.fax_run.specs.Modems.{modem_shown, standing};
ghost use Rattle.fax_run.specs.View.{view};
ghost use Rattle.fax_text.specs.Modems.{held_words, modem_line};
ghost use Rattle.fax_decide.specs.Fault.{OrNoAnswer};
ghost use Rattle.fax_decide.specs.Held.{held_text};
ghost use Rattle.fax_decide.specs.Looking.{Consults, Views};
ghost use Rattle.fax_decide.specs.Settings.{settings_of};

use crate::fault::Fault;
use crate::held::held_of;
use crate::names::in_order;
use crate::office::Office;
use fax_ask::{Answer, Reply};
use fax_core::Grant;
use fax_job::{Job, Name};
use fax_store::Store;
use fax_text::{HeldGrant, Standing, push_modem};
use sqlite::Alter;
use std::alloc::{AllocError, Global};

/// A line for each modem of the setup, and for each other that holds a grant. Nothing is stored.
pub(crate) fn show_modems<S: Alter>(
    store: &mut Store<S>,
    office: &Office,
    alloc: Global,
) -> Result<Reply, Fault>
    ensures { (t : ℕ) → Views S.Store store.old store.new result
        (λ m. view (settings_of office.now.setup office.now.controls) m t AllModems) }
{
    let holders = store.holders()?;
    let names = in_order(alloc, office.setup.modems(), holders)?;
    let text = lines(store, office, alloc, names.as_slice())?;
    Ok(told(alloc, text.as_slice())?)
}

/// The reply with these lines.
fn told(alloc: Global, text: &[u8]) -> Result<Reply, AllocError>
    ensures { IfOk result (λ reply. reply ≡ accepted_response (Shown text.now)) }
{
    Reply::accepted(alloc, &Answer::Lines(text))
}

/// The lines of these modems.
fn lines<S: Alter>(
    store: &mut Store<S>,
    office: &Office,
    alloc: Global,
    names: &[Name],
) -> Result<Vec<u8>, Fault>
    ensures { Consults S.Store store.old store.new result (λ m. (t : ℕ) → Sound m → OrNoAnswer result (λ text. text.items
        ≡ flat_map (modem_shown (settings_of office.now.setup office.now.controls) (aged t m)) names.now)) }
{
    let mut text = Vec::new(alloc);
    for name in names {
        let standing = standing_of(store, office, name.as_str())?;
        let held = held_of(store, name.as_str())?;
        push_line(&mut text, name, standing, held)?;
    }
    Ok(text)
}

/// Adds the line of a modem, with what it holds.
fn push_line(
    text: &mut Vec<u8>,
    name: &Name,
    standing: Standing,
    held: Option<(Grant, Job)>,
) -> Result<(), AllocError>
    ensures { OnOk result (text.new.items ≡ text.old.items ++ modem_line name.now standing (held_text held)) }
{
    match &held {
        Some((grant, job)) => push_modem(text, name.as_str(), standing, Some(shown(grant, job))),
        None => push_modem(text, name.as_str(), standing, None),
    }
}

/// Whether a modem is in the setup, and takes jobs.
fn standing_of<S: Alter>(
    store: &mut Store<S>,
    office: &Office,
    name: &str,
) -> Result<Standing, Fault>
    ensures { Consults S.Store store.old store.new result (λ m. OrNoAnswer result (λ found. found
        ≡ standing (settings_of office.now.setup office.now.controls) m name.now)) }
{
    if !office.setup.has_modem(name) {
        return Ok(Standing::Gone);
    }
    if store.is_down(name)? {
        Ok(Standing::Down)
    } else {
        Ok(Standing::Up)
    }
}

/// A grant, as it is shown.
fn shown<'a>(grant: &Grant, job: &'a Job) -> HeldGrant<'a>
    ensures { held_words result ≡ held_text (Some (grant.now, job.now)) }
{
    HeldGrant {
        grant: grant.number,
        job: grant.job,
        dial: job.fields().dial.text(),
        first_page: grant.first_page,
        last_page: grant.last_page,
        call: grant.call,
        confirmed: grant.confirmed,
    }
}
