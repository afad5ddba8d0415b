//! The words of the commands of a client that keeps a journal, `worker` and `post`.

ghost use Rattle.std.specs.Prelude.{◌≡◌, [], codes, false, map, unwrap_or, IfErr, IfOk};
ghost use Rattle.clap.specs.Words.{app_of, found_of, rows_of, rule_of};
ghost use Rattle.clap.specs.Walk.{all_of};
ghost use Rattle.clap.specs.declared.builder.command.Command.TheViews.{out-Command as fields_of};
ghost use Rattle.fax_text.specs.ClientWords.{IsJournaled, IsPostPlan, IsWorkerPlan, post_command, with_journal, words_argument, worker_command};
ghost use Rattle.fax_text.specs.Misuse.{IsMisuse};
ghost use Rattle.fax_text.specs.declared.client_words.Journaled.{Journaled};
ghost use Rattle.fax_text.specs.declared.client_words.PostPlan.{PostPlan};
ghost use Rattle.fax_text.specs.declared.client_words.WorkerPlan.{WorkerPlan};

use crate::words::{Misuse, long_option, number_or_none, text_of};
use clap::{Arg, ArgMatches, Command};
use std::alloc::{AllocError, Global};

/// The command of a modem's worker.
pub(crate) const WORKER: &str = "worker";

/// The command that posts any request.
pub(crate) const POST: &str = "post";

/// The options of each command with a journal.
#[derive(Clone, Copy)]
pub struct Journaled<'a> {
    /// `--to`: the host and the port of the queue.
    pub to: &'a str,
    /// `--journal`: the name of the journal's file.
    pub journal: &'a str,
    /// `--wait`: after how many seconds without an answer it gives up for now, at most 999999999999999999. Without it, it
    /// never does.
    pub wait: Option<u64>,
}

/// What `worker` is to do.
#[derive(Drop)]
pub struct WorkerPlan<'a> {
    pub at: Journaled<'a>,
    /// `--modem`: the modem that asks for work.
    pub modem: Option<&'a str>,
    /// The action, and what it is called with.
    pub words: Vec<&'a str>,
}

/// What `post` is to do.
#[derive(Drop)]
pub struct PostPlan<'a> {
    pub at: Journaled<'a>,
    /// `--client`: who asks.
    pub client: &'a str,
    /// `--key`: the key under which the answer is remembered.
    pub key: Option<&'a str>,
    /// `--forget`: the key whose answer is forgotten.
    pub forget: Option<&'a str>,
    /// The path, and the name of the body's file. Only `--forget` goes without them.
    pub words: Vec<&'a str>,
}

/// What the options of the journal say.
fn journaled_in<'a>(options: &ArgMatches<'a>) -> Result<Journaled<'a>, Misuse>
    ensures ok { IfOk result (IsJournaled (rows_of (found_of options.now))) }
    ensures err { IfErr result (λ _. (at : Journaled) → ¬ (IsJournaled (rows_of (found_of options.now)) at)) }
    ensures misuse { IfErr result (IsMisuse (rows_of (found_of options.now))) }
{
    let Some(to) = text_of(options, "to") else {
        return Err(Misuse::To);
    };
    let Some(journal) = text_of(options, "journal") else {
        return Err(Misuse::Journal);
    };
    let Some(wait) = number_or_none(options, "wait") else {
        return Err(Misuse::Wait);
    };
    Ok(Journaled { to, journal, wait })
}

/// What the words of `worker` say.
///
/// # Errors
///
/// What is missing or no number; or out of memory.
pub(crate) fn worker_plan_in<'a>(
    alloc: Global,
    options: &ArgMatches<'a>,
) -> Result<WorkerPlan<'a>, Misuse>
    ensures ok { IfOk result (IsWorkerPlan (rows_of (found_of options.now))) }
    ensures err { IfErr result (λ misuse. ¬ (misuse ≡ Misuse.NoMemory)
        → (plan : WorkerPlan) → ¬ (IsWorkerPlan (rows_of (found_of options.now)) plan)) }
    ensures misuse { IfErr result (IsMisuse (rows_of (found_of options.now))) }
{
    let at = journaled_in(options)?;
    let Some(words) = options.get_strs("word") else {
        return Err(Misuse::Word);
    };
    Ok(WorkerPlan {
        at,
        modem: text_of(options, "modem"),
        words: Vec::from_slice(alloc, words)?,
    })
}

/// What the words of `post` say.
///
/// # Errors
///
/// What is missing or no number; or out of memory.
pub(crate) fn post_plan_in<'a>(
    alloc: Global,
    options: &ArgMatches<'a>,
) -> Result<PostPlan<'a>, Misuse>
    ensures ok { IfOk result (IsPostPlan (rows_of (found_of options.now))) }
    ensures err { IfErr result (λ misuse. ¬ (misuse ≡ Misuse.NoMemory)
        → (plan : PostPlan) → ¬ (IsPostPlan (rows_of (found_of options.now)) plan)) }
    ensures misuse { IfErr result (IsMisuse (rows_of (found_of options.now))) }
{
    let at = journaled_in(options)?;
    let Some(client) = text_of(options, "client") else {
        return Err(Misuse::Client);
    };
    Ok(PostPlan {
        at,
        client,
        key: text_of(options, "key"),
        forget: text_of(options, "forget"),
        words: words_in(alloc, options)?,
    })
}

/// The words after the options, if there are any. The only error is out of memory.
fn words_in<'a>(alloc: Global, options: &ArgMatches<'a>) -> Result<Vec<&'a str>, AllocError>
    ensures { IfOk result (λ words. unwrap_or (all_of (codes "word") (rows_of (found_of options.now))) []
        ≡ map (λ word. word.now) words.items) }
{
    match options.get_strs("word") {
        Some(words) => Vec::from_slice(alloc, words),
        None => Ok(Vec::new(alloc)),
    }
}

// ---- the commands

pub(crate) fn worker_command<'a>(alloc: Global) -> Result<Command<'a>, AllocError>
    ensures shape { IfOk result (λ command. app_of command ≡ worker_command) }
    ensures local { IfOk result (λ command. (fields_of command).has_globals ≡ false) }
{
    let worker = Command::new(alloc, WORKER)
        .about("Asks for a modem's work and reports on it, over a journal")
        .after_help(
            "Actions:\n  next                    Asks for work, or prints the grant that is held\n  call RESULT             \
             Reports how the call went\n  page                    Reports the next page as confirmed\n  \
             end OUTCOME [REASON]    Reports the outcome\n  show                    Prints what the journal has\n\n\
             Example:\n  faxqd worker --to 127.0.0.1:4559 --journal ttyS0.journal --modem ttyS0 next",
        )
        .arg(long_option(alloc, "modem", "MODEM", "The modem, of `next`"))?
        .arg(words_argument(alloc, "The action, as `next`").required(true))?;
    with_journal(alloc, worker)
}

pub(crate) fn post_command<'a>(alloc: Global) -> Result<Command<'a>, AllocError>
    ensures shape { IfOk result (λ command. app_of command ≡ post_command) }
    ensures local { IfOk result (λ command. (fields_of command).has_globals ≡ false) }
{
    let post = Command::new(alloc, POST)
        .about("Posts a request until it is answered, over a journal")
        .after_help(
            "Example:\n  faxqd post --to 127.0.0.1:4559 --journal desk.journal --client desk --key letter-7 /jobs order.txt",
        )
        .arg(long_option(alloc, "client", "NAME", "Who asks").required(true))?
        .arg(long_option(
            alloc,
            "key",
            "KEY",
            "Remembers the answer, and prints it where it is there",
        ))?
        .arg(long_option(alloc, "forget", "KEY", "Forgets the answer of a key"))?
        .arg(words_argument(alloc, "The path, and the file with the body"))?;
    with_journal(alloc, post)
}

/// The words after the options.
fn words_argument<'a>(alloc: Global, help: &'a str) -> Arg<'a>
    ensures rule { rule_of result ≡ words_argument }
    ensures local { result.global ≡ false }
{
    Arg::new(alloc, "word")
        .num_args(1..)
        .value_name("WORD")
        .help(help)
}

/// The command, with the options of the journal.
fn with_journal<'a>(alloc: Global, command: Command<'a>) -> Result<Command<'a>, AllocError>
    ensures shape { IfOk result (λ made. app_of made ≡ with_journal (app_of command.entry)) }
    ensures local { IfOk result (λ made. (fields_of command.entry).has_globals ≡ false → (fields_of made).has_globals ≡ false) }
{
    command
        .arg(long_option(alloc, "to", "ADDRESS", "The queue, as 127.0.0.1:4559").required(true))?
        .arg(long_option(alloc, "journal", "FILE", "The journal, which it makes").required(true))?
        .arg(long_option(
            alloc,
            "wait",
            "SECONDS",
            "Gives up for now after so long [default: never]",
        ))
}
