//! The arguments of the commands that serve, `replay` and `serve`, and of the one that shows what they are set to, `settings`.

ghost use Rattle.std.specs.Prelude.{◌≡◌, false, IfErr, IfOk, IsErr};
ghost use Rattle.std.specs.Option.{option_copied};
ghost use Rattle.clap.specs.Words.{app_of, found_of, rows_of};
ghost use Rattle.clap.specs.declared.builder.command.Command.TheViews.{out-Command as fields_of};
ghost use Rattle.fax_text.specs.declared.server.ServePlan.{ServePlan};
ghost use Rattle.fax_text.specs.Server.{IsServePlan, file_names, files_in, replay_command, serve_command, settings_command, with_files};
ghost use Rattle.fax_text.specs.Misuse.{IsMisuse};
ghost use Rattle.fax_text.specs.Option.{number_or};

use crate::words::{Misuse, long_option, text_of};
use clap::{ArgMatches, Command};
use fax_job::read_number;
use std::alloc::{AllocError, Global};

/// The command that serves its input.
pub(crate) const REPLAY: &str = "replay";

/// The command that serves connections.
pub(crate) const SERVE: &str = "serve";

/// The command that prints what an office's files mean.
pub(crate) const SETTINGS: &str = "settings";

/// The most connections that one run serves.
const CONNECTION_LIMIT: u64 = 1_000_000;

/// The most seconds that a read or a write may wait.
const TIMEOUT_LIMIT: u64 = 3_600;

/// The files that a command is told to read. One that isn't named counts as empty.
#[derive(Clone, Copy)]
pub struct OfficeFiles<'a> {
    pub setup: Option<&'a str>,
    pub controls: Option<&'a str>,
}

/// What `serve` is to do.
#[derive(Clone, Copy)]
pub struct ServePlan<'a> {
    pub files: OfficeFiles<'a>,
    /// `--db`: the name of the database's file.
    pub database: &'a str,
    /// `--listen`: a host and a port.
    pub address: &'a str,
    /// `--connections`: how many are served, from 1 to 1,000,000.
    pub connections: u64,
    /// `--timeout`: how many seconds a read or a write may wait, from 1 to 3,600.
    pub timeout: u64,
}

/// What the options of `serve` say.
pub(crate) fn serve_plan_in<'a>(options: &ArgMatches<'a>) -> Result<ServePlan<'a>, Misuse>
    ensures ok { IfOk result (IsServePlan (rows_of (found_of options.now))) }
    ensures err { IsErr result → (plan : ServePlan) → ¬ (IsServePlan (rows_of (found_of options.now)) plan) }
    ensures misuse { IfErr result (IsMisuse (rows_of (found_of options.now))) }
{
    let Some(database) = text_of(options, "db") else {
        return Err(Misuse::Database);
    };
    let Some(address) = text_of(options, "listen") else {
        return Err(Misuse::Address);
    };
    let Some(connections) = number_in(text_of(options, "connections"), 1_000, CONNECTION_LIMIT)
    else {
        return Err(Misuse::Connections);
    };
    let Some(timeout) = number_in(text_of(options, "timeout"), 10, TIMEOUT_LIMIT) else {
        return Err(Misuse::Timeout);
    };
    Ok(ServePlan {
        files: files_in(options),
        database,
        address,
        connections,
        timeout,
    })
}

/// The number that an option says, from 1 to `most`, or else the one that stands where it isn't given.
#[tactic(auto, unfolding(crate::specs::Option::number_or))]
fn number_in(said: Option<&str>, default: u64, most: u64) -> Option<u64>
    ensures { result ≡ number_or default 1 most (option_copied said.entry) }
{
    let Some(text) = said else {
        return Some(default);
    };
    let number = read_number(text.as_bytes())?;
    if number >= 1 && number <= most {
        Some(number)
    } else {
        None
    }
}

/// The files that a command's options name.
pub(crate) fn files_in<'a>(options: &ArgMatches<'a>) -> OfficeFiles<'a>
    ensures { file_names result ≡ files_in (rows_of (found_of options.now)) }
{
    OfficeFiles {
        setup: text_of(options, "setup"),
        controls: text_of(options, "controls"),
    }
}

// ---- the commands

pub(crate) fn replay_command<'a>(alloc: Global) -> Result<Command<'a>, AllocError>
    ensures shape { IfOk result (λ command. app_of command ≡ replay_command) }
    ensures local { IfOk result (λ command. (fields_of command).has_globals ≡ false) }
{
    let replay = Command::new(alloc, REPLAY)
        .about("Answers the requests on standard input, over tables in memory")
        .after_help("Example:\n  faxqd replay --setup office.setup < one-fax.http");
    with_files(alloc, replay)
}

pub(crate) fn settings_command<'a>(alloc: Global) -> Result<Command<'a>, AllocError>
    ensures shape { IfOk result (λ command. app_of command ≡ settings_command) }
    ensures local { IfOk result (λ command. (fields_of command).has_globals ≡ false) }
{
    let settings = Command::new(alloc, SETTINGS)
        .about("Prints what setup and controls mean, and which lines aren't used")
        .after_help("Example:\n  faxqd settings --setup office.setup --controls office.controls");
    with_files(alloc, settings)
}

pub(crate) fn serve_command<'a>(alloc: Global) -> Result<Command<'a>, AllocError>
    ensures shape { IfOk result (λ command. app_of command ≡ serve_command) }
    ensures local { IfOk result (λ command. (fields_of command).has_globals ≡ false) }
{
    let serve = Command::new(alloc, SERVE)
        .about("Serves connections, over the tables in a file")
        .after_help(
            "Example:\n  faxqd serve --db queue.db --listen 127.0.0.1:4559 --setup office.setup",
        )
        .arg(long_option(
            alloc,
            "db",
            "FILE",
            "The SQLite file that has the queue, or is to have it",
        )
        .required(true))?
        .arg(long_option(
            alloc,
            "listen",
            "ADDRESS",
            "The host and the port to listen on, as 127.0.0.1:4559",
        )
        .required(true))?
        .arg(long_option(
            alloc,
            "connections",
            "N",
            "Connections to serve, one by one [default: 1000]",
        ))?
        .arg(long_option(
            alloc,
            "timeout",
            "SECONDS",
            "How long a read or a write may wait; a connection,\nsix times as long [default: 10]",
        ))?;
    with_files(alloc, serve)
}

/// The command, with the options that name an office's files.
pub(crate) fn with_files<'a>(alloc: Global, command: Command<'a>) -> Result<Command<'a>, AllocError>
    ensures shape { IfOk result (λ made. app_of made ≡ with_files (app_of command.entry)) }
    ensures local { IfOk result (λ made. (fields_of command.entry).has_globals ≡ false → (fields_of made).has_globals ≡ false) }
{
    command
        .arg(long_option(
            alloc,
            "setup",
            "FILE",
            "The modems, their classes, delays and limits",
        ))?
        .arg(long_option(alloc, "controls", "FILE", "What holds for which numbers"))
}
