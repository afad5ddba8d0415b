//! The words of the command `check`.

ghost use Rattle.std.specs.Prelude.{◌≡◌, false, IfErr, IfOk, IsErr};
ghost use Rattle.clap.specs.Words.{app_of, found_of, rows_of};
ghost use Rattle.clap.specs.declared.builder.command.Command.TheViews.{out-Command as fields_of};
ghost use Rattle.fax_text.specs.CheckWords.{IsCheckPlan, check_command};
ghost use Rattle.fax_text.specs.Misuse.{IsMisuse};
ghost use Rattle.fax_text.specs.declared.check_words.CheckPlan.{CheckPlan};

use crate::words::{Misuse, long_option, text_of};
use clap::{ArgMatches, Command};
use std::alloc::{AllocError, Global};

/// The command that checks the rows of a database.
pub(crate) const CHECK: &str = "check";

/// What `check` is to do.
#[derive(Clone, Copy)]
pub struct CheckPlan<'a> {
    /// `--db`: the name of the database's file.
    pub database: &'a str,
}

/// What the options of `check` say.
pub(crate) fn check_plan_in<'a>(options: &ArgMatches<'a>) -> Result<CheckPlan<'a>, Misuse>
    ensures ok { IfOk result (IsCheckPlan (rows_of (found_of options.now))) }
    ensures err { IsErr result → (plan : CheckPlan) → ¬ (IsCheckPlan (rows_of (found_of options.now)) plan) }
    ensures misuse { IfErr result (IsMisuse (rows_of (found_of options.now))) }
{
    match text_of(options, "db") {
        Some(database) => Ok(CheckPlan { database }),
        None => Err(Misuse::Database),
    }
}

pub(crate) fn check_command<'a>(alloc: Global) -> Result<Command<'a>, AllocError>
    ensures shape { IfOk result (λ command. app_of command ≡ check_command) }
    ensures local { IfOk result (λ command. (fields_of command).has_globals ≡ false) }
{
    let database = long_option(alloc, "db", "FILE", "The SQLite file that has the queue").required(
        true,
    );
    Command::new(alloc, CHECK)
        .about("Tests whether the rows of a database are those of a sound queue")
        .after_help("Example:\n  faxqd check --db queue.db")
        .arg(database)
}
