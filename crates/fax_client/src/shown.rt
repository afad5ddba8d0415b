//! What a worker's command prints.

ghost use Rattle.std.specs.Prelude.{◌≡◌, IfOk, option_map, string_bytes};
ghost use Rattle.fax_client.specs.Shown.{held_line, result_word, text_of, unanswered_line};

use fax_job::Call;
use fax_worker::{Held, Pending, Worker, call_word};
use std::alloc::{AllocError, Global};

/// What a worker's command prints.
#[derive(Drop)]
pub enum Shown {
    /// Whether the call is to stop.
    Goes { stop: bool },
    /// The job of the grant that ended, and its state from 1 to 8 (sendq(5)).
    Ended { job: u32, state: u8 },
    /// What the worker holds.
    Grant(Worker),
    /// What it holds, and the path of the request that isn't answered.
    Journal(Worker),
}

impl Shown {
    /// The lines that say it. The only error is out of memory.
    pub fn text(&self, alloc: Global) -> Result<String, AllocError>
        ensures { IfOk result (λ text. string_bytes text ≡ text_of self.now) }
    {
        match self {
            Shown::Goes { stop: false } => String::from_str(alloc, "go\n"),
            Shown::Goes { stop: true } => String::from_str(alloc, "stop\n"),
            Shown::Ended { job, state } => format!(in alloc; "job {job} state {state}\n"),
            Shown::Grant(worker) => held_line(alloc, worker.held()),
            Shown::Journal(worker) => {
                let held = held_line(alloc, worker.held())?;
                let unanswered = unanswered_line(alloc, worker.unanswered())?;
                format!(in alloc; "{held}{unanswered}")
            }
        }
    }
}

/// The path of the request that isn't answered, if there is one.
fn unanswered_line(alloc: Global, unanswered: Option<&Pending>) -> Result<String, AllocError>
    ensures { IfOk result (λ text. string_bytes text ≡ unanswered_line (option_map (λ p. p.now) unanswered.entry)) }
{
    let Some(pending) = unanswered else {
        return Ok(String::new(alloc));
    };
    let said = pending.said(alloc)?;
    let path = said.path.as_str();
    format!(in alloc; "unanswered {path}\n")
}

/// The grant that is held: the pages are those that aren't reported.
fn held_line(alloc: Global, held: Option<&Held>) -> Result<String, AllocError>
    ensures { IfOk result (λ text. string_bytes text ≡ held_line (option_map (λ h. h.now) held.entry)) }
{
    let Some(held) = held else {
        return String::from_str(alloc, "none\n");
    };
    let grant = held.grant();
    let job = held.job();
    let number = held.number();
    let first = held.next_page();
    let last = held.last_page();
    let call = result_word(held.call());
    format!(in alloc; "grant {grant} job {job} number {number} pages {first}-{last} call {call}\n")
}

fn result_word(call: Option<Call>) -> &'static str
    ensures { result.now ≡ result_word call }
{
    match call {
        Some(call) => call_word(call),
        None => "none",
    }
}
