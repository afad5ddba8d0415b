//! The words of the command line, read by `clap`.

ghost use Rattle.std.specs.Prelude.{◌≡◌, ◌≤◌, ℕ, List, ◌∷◌, false, codes, IfErr, IfOk, IfSome, IsErr, MatchResult, Some, map, option_and_then, string_bytes};
ghost use Rattle.std.specs.Option.{option_copied};
ghost use Rattle.clap.specs.Words.{app_of, first_of, found_of, kind_of, rows_of, rule_of, subcommand_rows_of, with_subcommand};
ghost use Rattle.clap.specs.declared.builder.command.Command.TheViews.{out-Command as fields_of};
ghost use Rattle.fax_text.specs.declared.sendfax.SendPlan.{SendPlan};
ghost use Rattle.fax_text.specs.CommandLine.{IsFixed};
ghost use Rattle.fax_text.specs.Misuse.{IsMisuse, IsMisuseOf, misuse_text};
ghost use Rattle.fax_text.specs.Option.{long_option, number_or_none, number_from, number_or, short_option};
ghost use Rattle.fax_text.specs.Words.{IsNoPlan, IsPlanOf, IsSendPlan, Reads, TellsKind, TellsMisuse, program, sendfax_command, with_fax, with_limits, with_request, with_times};

use crate::check_words::{CHECK, CheckPlan, check_command, check_plan_in};
use crate::client_words::{
    POST, PostPlan, WORKER, WorkerPlan, post_command, post_plan_in, worker_command, worker_plan_in,
};
use crate::import_words::{IMPORT, ImportPlan, import_command, import_plan_in};
use crate::list_words::{LIST, ListPlan, list_command, list_plan_in};
use crate::sendfax::SendPlan;
use crate::server::{
    OfficeFiles, REPLAY, SERVE, SETTINGS, ServePlan, files_in, replay_command, serve_command,
    serve_plan_in, settings_command,
};
use clap::error::ErrorKind;
use clap::{Arg, ArgMatches, Command, Error};
use fax_job::read_number;
use std::alloc::{AllocError, Global};

/// The version. In a built program `packaging/stamp` replaces the zeros by the commit and the toolchain.
const VERSION: &str = "0 (commit 0000000000, rattle-kit-000)";

/// The name of the command that hands in a job.
const SENDFAX: &str = "sendfax";

/// What the words ask for.
#[derive(Drop)]
pub enum Plan<'a> {
    /// Serve the input over a store in memory, by these files.
    Replay(OfficeFiles<'a>),
    /// Serve connections over a store in a file.
    Serve(ServePlan<'a>),
    /// List the jobs in a database.
    List(ListPlan<'a>),
    /// Test the rows of a database.
    Check(CheckPlan<'a>),
    /// Hand in a job, or print the request that does.
    Sendfax(SendPlan<'a>),
    /// Print the requests that bring the jobs of an older queue in.
    Import(ImportPlan<'a>),
    /// Print what these files mean.
    Settings(OfficeFiles<'a>),
    /// Act for a modem.
    Worker(WorkerPlan<'a>),
    /// Post a request.
    Post(PostPlan<'a>),
}

/// Why words ask for no command.
#[derive(Drop)]
pub enum WordsFault {
    /// They ask for help, and this is its text.
    Help(String),
    /// They are no command's, and this says what is wrong.
    Usage(String),
    NoMemory,
}

impl From<AllocError> for WordsFault {
    ghost use Rattle.std.specs.Prelude.{◌≡◌};
    ghost use Rattle.fax_text.specs.declared.words.WordsFault.TheVariants.{NoMemory};

    ghost from_gives = { λ _ fault. fault ≡ NoMemory };

    fn from(_: AllocError) -> WordsFault {
        WordsFault::NoMemory
    }
}

/// What is wrong with the options of a command.
#[derive(Clone, Copy, Debug, PartialEq, Eq)]
pub(crate) enum Misuse {
    Command,
    Database,
    Address,
    Connections,
    Timeout,
    Destination,
    Pages,
    Request,
    Priority,
    Tries,
    Dials,
    Moment,
    Client,
    File,
    To,
    Journal,
    Wait,
    Word,
    NoMemory,
}

impl From<AllocError> for Misuse {
    ghost use Rattle.std.specs.Prelude.{◌≡◌};
    ghost use Rattle.fax_text.specs.declared.words.Misuse.TheVariants.{NoMemory};

    ghost from_gives = { λ _ misuse. misuse ≡ NoMemory };

    fn from(_: AllocError) -> Misuse {
        Misuse::NoMemory
    }
}

impl Misuse {
    /// What is wrong, in words.
    #[tactic(auto, unfolding(crate::specs::Misuse::misuse_text))]
    fn text(self) -> &'static str
        ensures { result.now ≡ misuse_text self }
    {
        match self {
            Misuse::Command => "no such command",
            Misuse::Database => "--db is missing",
            Misuse::Address => "--listen is missing",
            Misuse::Connections => "--connections wants a number from 1 to 1000000",
            Misuse::Timeout => "--timeout wants a number from 1 to 3600",
            Misuse::Destination => "-d is missing",
            Misuse::Pages => "--pages wants a number from 1 to 9999",
            Misuse::Request => "--request is missing",
            Misuse::Priority => "-P wants a number from 0 to 255",
            Misuse::Tries => "-t wants a number from 1 to 1000",
            Misuse::Dials => "-T wants a number from 1 to 1000",
            Misuse::Moment => "--moment wants a number of 1 to 18 digits",
            Misuse::Client => "--client is missing",
            Misuse::File => "FILE is missing",
            Misuse::To => "--to is missing",
            Misuse::Journal => "--journal is missing",
            Misuse::Wait => "--wait wants a number of 1 to 18 digits",
            Misuse::Word => "the action is missing",
            Misuse::NoMemory => "no memory",
        }
    }
}

/// The plan that the words spell, the first of them being the program's name.
///
/// # Errors
///
/// Help, where it is asked for; what is wrong with the words; or want of memory.
pub fn read_words<'a>(alloc: Global, words: &'a [String]) -> Result<Plan<'a>, WordsFault>
    ensures reads { Reads (map string_bytes words.entry.now) result }
    ensures fixed { (name : List ℕ) (behind : List (List ℕ)) → map string_bytes words.entry.now ≡ name ∷ behind → IsFixed behind result }
{
    let matches = match command(alloc)?.try_get_matches_from(words) {
        Ok(matches) => matches,
        Err(error) => return Err(explain(alloc, &error)?),
    };
    match plan_in(alloc, &matches) {
        Ok(plan) => Ok(plan),
        Err(misuse) => Err(tell(alloc, misuse)?),
    }
}

/// What the command that was named is to do, by its own options.
fn plan_in<'a>(alloc: Global, matches: &ArgMatches<'a>) -> Result<Plan<'a>, Misuse>
    ensures ok { IfOk result (IsPlanOf (subcommand_rows_of matches.now)) }
    ensures err { IfErr result (λ misuse. ¬ (misuse ≡ Misuse.NoMemory) → IsNoPlan (subcommand_rows_of matches.now)) }
    ensures misuse { IfErr result (IsMisuseOf (subcommand_rows_of matches.now)) }
{
    if let Some(options) = matches.subcommand_matches(REPLAY) {
        return Ok(Plan::Replay(files_in(options)));
    }
    if let Some(options) = matches.subcommand_matches(SERVE) {
        return Ok(Plan::Serve(serve_plan_in(options)?));
    }
    if let Some(options) = matches.subcommand_matches(LIST) {
        return Ok(Plan::List(list_plan_in(options)?));
    }
    if let Some(options) = matches.subcommand_matches(CHECK) {
        return Ok(Plan::Check(check_plan_in(options)?));
    }
    if let Some(options) = matches.subcommand_matches(SENDFAX) {
        return Ok(Plan::Sendfax(send_plan_in(options)?));
    }
    if let Some(options) = matches.subcommand_matches(IMPORT) {
        return Ok(Plan::Import(import_plan_in(alloc, options)?));
    }
    if let Some(options) = matches.subcommand_matches(SETTINGS) {
        return Ok(Plan::Settings(files_in(options)));
    }
    if let Some(options) = matches.subcommand_matches(WORKER) {
        return Ok(Plan::Worker(worker_plan_in(alloc, options)?));
    }
    if let Some(options) = matches.subcommand_matches(POST) {
        return Ok(Plan::Post(post_plan_in(alloc, options)?));
    }
    Err(Misuse::Command)
}

// ---- sendfax

/// What the options of `sendfax` say.
fn send_plan_in<'a>(options: &ArgMatches<'a>) -> Result<SendPlan<'a>, Misuse>
    ensures ok { IfOk result (IsSendPlan (rows_of (found_of options.now))) }
    ensures err { IsErr result → (plan : SendPlan) → ¬ (IsSendPlan (rows_of (found_of options.now)) plan) }
    ensures misuse { IfErr result (IsMisuse (rows_of (found_of options.now))) }
{
    let Some(destination) = text_of(options, "destination") else {
        return Err(Misuse::Destination);
    };
    let Some(request) = text_of(options, "request") else {
        return Err(Misuse::Request);
    };
    let Some(pages) = pages_in(options) else {
        return Err(Misuse::Pages);
    };
    let Some(priority) = number_or(options, "priority", 127, 0, 255) else {
        return Err(Misuse::Priority);
    };
    let Some(tries) = number_or(options, "tries", 3, 1, 1000) else {
        return Err(Misuse::Tries);
    };
    let Some(dials) = number_or(options, "dials", 12, 1, 1000) else {
        return Err(Misuse::Dials);
    };
    let Some(moment) = number_or_none(options, "moment") else {
        return Err(Misuse::Moment);
    };
    Ok(SendPlan {
        destination,
        pages,
        request,
        client: text_of(options, "client").unwrap_or(SENDFAX),
        priority: priority as u8,
        tries,
        dials,
        at: text_of(options, "at"),
        kill: text_of(options, "kill"),
        tag: text_of(options, "tag"),
        moment,
        to: text_of(options, "to"),
    })
}

/// The text of an option, where it is there.
pub(crate) fn text_of<'a>(options: &ArgMatches<'a>, option: &str) -> Option<&'a str>
    ensures { option_copied result ≡ first_of option.now (rows_of (found_of options.now)) }
{
    options.get_str(option)
}

fn pages_in(options: &ArgMatches<'_>) -> Option<u16>
    ensures { result ≡ option_and_then (number_from 1 9999) (first_of (codes "pages") (rows_of (found_of options.now))) }
{
    number_from(1, 9999, text_of(options, "pages")?)
}

/// The number of an option that may be missing, from the least to the greatest.
#[tactic(auto, unfolding(crate::specs::Option::number_or))]
fn number_or(
    options: &ArgMatches<'_>,
    option: &str,
    default: u16,
    least: u16,
    greatest: u16,
) -> Option<u16>
    requires { default ≤ greatest }
    ensures number { result ≡ number_or default least greatest (first_of option.now (rows_of (found_of options.now))) }
    ensures bound { IfSome result (λ number. number ≤ greatest) }
{
    match text_of(options, option) {
        Some(text) => number_from(least, greatest, text),
        None => Some(default),
    }
}

/// The number that a text writes, from the least to the greatest.
fn number_from(least: u16, greatest: u16, text: &str) -> Option<u16>
    ensures number { result ≡ number_from least greatest text.now }
    ensures bound { IfSome result (λ number. number ≤ greatest) }
{
    let number = read_number(text.as_bytes())?;
    if u64::from(least) <= number && number <= u64::from(greatest) {
        Some(number as u16)
    } else {
        None
    }
}

/// The number of an option, which may be missing.
#[tactic(auto, unfolding(crate::specs::Option::number_or_none))]
pub(crate) fn number_or_none(options: &ArgMatches<'_>, option: &str) -> Option<Option<u64>>
    ensures { result ≡ number_or_none (first_of option.now (rows_of (found_of options.now))) }
{
    match text_of(options, option) {
        Some(text) => Some(Some(read_number(text.as_bytes())?)),
        None => Some(None),
    }
}

// ---- the commands

/// The commands of faxqd.
fn command<'a>(alloc: Global) -> Result<Command<'a>, AllocError>
    ensures { IfOk result (λ command. app_of command ≡ program) }
{
    let program = Command::new(alloc, "faxqd")
        .about("The send queue of a fax server")
        .version(VERSION)
        .after_help("Example:\n  faxqd serve --db queue.db --listen 127.0.0.1:4559")
        .subcommand_required(true);
    let program = with_command(program, replay_command(alloc))?;
    let program = with_command(program, serve_command(alloc))?;
    let program = with_command(program, list_command(alloc))?;
    let program = with_command(program, check_command(alloc))?;
    let program = with_command(program, sendfax_command(alloc))?;
    let program = with_command(program, import_command(alloc))?;
    let program = with_command(program, settings_command(alloc))?;
    let program = with_command(program, worker_command(alloc))?;
    with_command(program, post_command(alloc))
}

/// Adds a command, unless memory ran out for it.
fn with_command<'a>(
    program: Command<'a>,
    made: Result<Command<'a>, AllocError>,
) -> Result<Command<'a>, AllocError>
    ensures { IfOk result (λ whole. MatchResult made.entry
        (λ command. (fields_of command).has_globals ≡ false → app_of whole ≡ with_subcommand (app_of program.entry) (app_of command).top)
        (λ fault. ⊥)) }
{
    program.subcommand(made?)
}

/// The command that hands in a job.
fn sendfax_command<'a>(alloc: Global) -> Result<Command<'a>, AllocError>
    ensures { IfOk result (λ command. app_of command ≡ sendfax_command) }
{
    let command = Command::new(alloc, SENDFAX)
        .about("Hands in a job, or prints the request that does")
        .after_help(
            "Example:\n  faxqd sendfax -d '+1 415 555-0100' --pages 3 --request 7 --to 127.0.0.1:4559",
        );
    let command = with_fax(alloc, command)?;
    let command = with_limits(alloc, command)?;
    let command = with_times(alloc, command)?;
    with_request(alloc, command)
}

/// Adds what is to be faxed where.
fn with_fax<'a>(alloc: Global, command: Command<'a>) -> Result<Command<'a>, AllocError>
    ensures { IfOk result (λ made. app_of made ≡ with_fax (app_of command.entry)) }
{
    command
        .arg(short_option(alloc, "destination", 'd', "NUMBER", "The number to dial").required(
            true,
        ))?
        .arg(long_option(alloc, "pages", "PAGES", "How many pages, from 1 to 9999").required(true))?
        .arg(short_option(alloc, "tag", 'i', "TAG", "The job tag"))
}

/// Adds how often it is tried.
fn with_limits<'a>(alloc: Global, command: Command<'a>) -> Result<Command<'a>, AllocError>
    ensures { IfOk result (λ made. app_of made ≡ with_limits (app_of command.entry)) }
{
    command
        .arg(short_option(
            alloc,
            "priority",
            'P',
            "PRIORITY",
            "From 0 to 255, lower goes first [default: 127]",
        ))?
        .arg(short_option(
            alloc,
            "tries",
            't',
            "TRIES",
            "The most tries, from 1 to 1000 [default: 3]",
        ))?
        .arg(short_option(
            alloc,
            "dials",
            'T',
            "DIALS",
            "The most dials, from 1 to 1000 [default: 12]",
        ))
}

/// Adds when it goes.
fn with_times<'a>(alloc: Global, command: Command<'a>) -> Result<Command<'a>, AllocError>
    ensures { IfOk result (λ made. app_of made ≡ with_times (app_of command.entry)) }
{
    command
        .arg(short_option(
            alloc,
            "at",
            'a',
            "TIME",
            "The time to send: now, now + 2 hours, or an instant",
        ))?
        .arg(short_option(alloc, "kill", 'k', "TIME", "The kill time, likewise"))?
        .arg(long_option(alloc, "moment", "SECONDS", "What counts as now, since 1970"))
}

/// Adds who asks, and where.
fn with_request<'a>(alloc: Global, command: Command<'a>) -> Result<Command<'a>, AllocError>
    ensures { IfOk result (λ made. app_of made ≡ with_request (app_of command.entry)) }
{
    command
        .arg(long_option(
            alloc,
            "request",
            "NUMBER",
            "The client's own number of this request",
        )
        .required(true))?
        .arg(long_option(alloc, "client", "NAME", "Who asks [default: sendfax]"))?
        .arg(long_option(
            alloc,
            "to",
            "ADDRESS",
            "The host and the port to send it to; without this,\nthe request is printed",
        ))
}

/// An option with a name of two dashes.
pub(crate) fn long_option<'a>(
    alloc: Global,
    name: &'a str,
    value: &'a str,
    help: &'a str,
) -> Arg<'a>
    ensures rule { rule_of result ≡ long_option name.entry.now }
    ensures local { result.global ≡ false }
{
    Arg::new(alloc, name)
        .long(name)
        .value_name(value)
        .help(help)
}

/// An option with a letter of one dash.
fn short_option<'a>(
    alloc: Global,
    name: &'a str,
    letter: char,
    value: &'a str,
    help: &'a str,
) -> Arg<'a>
    ensures rule { rule_of result ≡ short_option name.entry.now letter }
    ensures local { result.global ≡ false }
{
    Arg::new(alloc, name)
        .short(letter)
        .value_name(value)
        .help(help)
}

/// What is wrong with the options, unless memory ran out.
fn tell(alloc: Global, misuse: Misuse) -> Result<WordsFault, AllocError>
    ensures { IfOk result (TellsMisuse misuse) }
{
    if misuse == Misuse::NoMemory {
        return Ok(WordsFault::NoMemory);
    }
    let text = misuse.text();
    Ok(WordsFault::Usage(format!(in alloc; "error: {text}\n")?))
}

/// What `clap` has to say, and whether it is help.
fn explain(alloc: Global, error: &Error) -> Result<WordsFault, AllocError>
    ensures { IfOk result (TellsKind (kind_of error.now)) }
{
    if error.kind() == ErrorKind::OutOfMemory {
        return Ok(WordsFault::NoMemory);
    }
    let text = format!(in alloc; "{error}")?;
    Ok(if error.use_stderr() {
        WordsFault::Usage(text)
    } else {
        WordsFault::Help(text)
    })
}
