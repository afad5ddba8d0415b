//! The words of the command `import`.

ghost use Rattle.std.specs.Prelude.{◌≡◌, false, IfOk, IfErr};
ghost use Rattle.clap.specs.Words.{app_of, found_of, rows_of, rule_of};
ghost use Rattle.clap.specs.declared.builder.command.Command.TheViews.{out-Command as fields_of};
ghost use Rattle.fax_text.specs.declared.import_words.ImportPlan.{ImportPlan};
ghost use Rattle.fax_text.specs.ImportWords.{IsImportPlan, files_argument, import_command};
ghost use Rattle.fax_text.specs.Misuse.{IsMisuse};

use crate::words::{Misuse, long_option, text_of};
use clap::{Arg, ArgMatches, Command};
use std::alloc::{AllocError, Global};

/// The command that prints the requests that bring jobs in.
pub(crate) const IMPORT: &str = "import";

/// What the words of `import` say.
#[derive(Drop)]
pub struct ImportPlan<'a> {
    /// `--client`: who asks.
    pub client: &'a str,
    /// `--request`: the number of the first request.
    pub request: &'a str,
    /// The names of the files, in order.
    pub files: Vec<&'a str>,
}

/// What the words of `import` say.
///
/// # Errors
///
/// What is missing; or want of memory for the names of the files.
pub(crate) fn import_plan_in<'a>(
    alloc: Global,
    options: &ArgMatches<'a>,
) -> Result<ImportPlan<'a>, Misuse>
    ensures ok { IfOk result (IsImportPlan (rows_of (found_of options.now))) }
    ensures err { IfErr result (λ misuse. ¬ (misuse ≡ Misuse.NoMemory)
        → (plan : ImportPlan) → ¬ (IsImportPlan (rows_of (found_of options.now)) plan)) }
    ensures misuse { IfErr result (IsMisuse (rows_of (found_of options.now))) }
{
    let Some(client) = text_of(options, "client") else {
        return Err(Misuse::Client);
    };
    let Some(request) = text_of(options, "request") else {
        return Err(Misuse::Request);
    };
    let Some(files) = options.get_strs("file") else {
        return Err(Misuse::File);
    };
    Ok(ImportPlan {
        client,
        request,
        files: Vec::from_slice(alloc, files)?,
    })
}

pub(crate) fn import_command<'a>(alloc: Global) -> Result<Command<'a>, AllocError>
    ensures shape { IfOk result (λ command. app_of command ≡ import_command) }
    ensures local { IfOk result (λ command. (fields_of command).has_globals ≡ false) }
{
    Command::new(alloc, IMPORT)
        .about("Prints the requests that bring the jobs of an older queue in")
        .after_help("Example:\n  faxqd import --client old --request 1 sendq/q1 sendq/q2")
        .arg(long_option(alloc, "client", "NAME", "Who asks").required(true))?
        .arg(long_option(
            alloc,
            "request",
            "NUMBER",
            "The first request's number; each file has the next",
        )
        .required(true))?
        .arg(files_argument(alloc))
}

/// The names of the files, one at least.
fn files_argument<'a>(alloc: Global) -> Arg<'a>
    ensures rule { rule_of result ≡ files_argument }
    ensures local { result.global ≡ false }
{
    Arg::new(alloc, "file")
        .num_args(1..)
        .value_name("FILE")
        .help("A job's file, as HylaFAX's sendq/q1")
        .required(true)
}
