//! The words of the command `list`.

ghost use Rattle.std.specs.Prelude.{◌≡◌, false, IfErr, IfOk, IsErr};
ghost use Rattle.clap.specs.Words.{app_of, found_of, rows_of};
ghost use Rattle.clap.specs.declared.builder.command.Command.TheViews.{out-Command as fields_of};
ghost use Rattle.fax_text.specs.declared.list_words.ListPlan.{ListPlan};
ghost use Rattle.fax_text.specs.ListWords.{IsListPlan, list_command};
ghost use Rattle.fax_text.specs.Misuse.{IsMisuse};

use crate::server::{OfficeFiles, files_in, with_files};
use crate::words::{Misuse, long_option, number_or_none, text_of};
use clap::{ArgMatches, Command};
use std::alloc::{AllocError, Global};

/// The command that lists the jobs in a database.
pub(crate) const LIST: &str = "list";

/// What `list` is to do.
#[derive(Clone, Copy)]
pub struct ListPlan<'a> {
    pub files: OfficeFiles<'a>,
    /// `--db`: the name of the database's file.
    pub database: &'a str,
    /// `--moment`: in seconds since 1970-01-01T00:00:00Z, at most 999999999999999999.
    pub moment: Option<u64>,
}

/// What the options of `list` say.
pub(crate) fn list_plan_in<'a>(options: &ArgMatches<'a>) -> Result<ListPlan<'a>, Misuse>
    ensures ok { IfOk result (IsListPlan (rows_of (found_of options.now))) }
    ensures err { IsErr result → (plan : ListPlan) → ¬ (IsListPlan (rows_of (found_of options.now)) plan) }
    ensures misuse { IfErr result (IsMisuse (rows_of (found_of options.now))) }
{
    let Some(database) = text_of(options, "db") else {
        return Err(Misuse::Database);
    };
    let Some(moment) = number_or_none(options, "moment") else {
        return Err(Misuse::Moment);
    };
    Ok(ListPlan {
        files: files_in(options),
        database,
        moment,
    })
}

pub(crate) fn list_command<'a>(alloc: Global) -> Result<Command<'a>, AllocError>
    ensures shape { IfOk result (λ command. app_of command ≡ list_command) }
    ensures local { IfOk result (λ command. (fields_of command).has_globals ≡ false) }
{
    let list = Command::new(alloc, LIST)
        .about("Prints the listing of the jobs in a database's file")
        .after_help("Example:\n  faxqd list --db queue.db --setup office.setup")
        .arg(long_option(alloc, "db", "FILE", "The SQLite file that has the queue").required(true))?
        .arg(long_option(alloc, "moment", "SECONDS", "What counts as now, since 1970"))?;
    with_files(alloc, list)
}
