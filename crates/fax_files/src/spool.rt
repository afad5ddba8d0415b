//! The files of an older queue's jobs, and the requests that bring these in.
ghost use Rattle.std.specs.Prelude.{◌≡◌, ◌≤◌, IfOk, length};
ghost use Rattle.fax_files.specs.FaultLine.{spool_line, words_line};
ghost use Rattle.fax_files.specs.Spool.{AreImports, IsNamed, MakesImports, longest_body, refused};
ghost use Rattle.fax_ending.specs.Ending.{spoken};
ghost use Rattle.fax_ending.specs.FaultLine.{spelled};

use fax_ending::{Ending, FaultLine, Place};
use fax_text::{ImportFault, ImportPlan, first_number, import_request};
use std::alloc::{AllocError, AllocFailed, Global};
use std::fs::File;
use std::io::{self, ErrorKind, Read};

/// The most bytes of a file: what a request's body may have.
const LONGEST_BODY: u64 = 65_536;

/// Why there are no requests.
#[derive(Clone, Copy)]
pub enum SpoolFault<'a> {
    /// The client or a number is at fault.
    Words(ImportFault),
    /// The file of this name can't be read.
    Unreadable(&'a str),
    /// The file of this name has more bytes than the body of a request.
    TooLarge(&'a str),
    NoMemory,
}

impl<'a> From<AllocError> for SpoolFault<'a> {
    ghost use Rattle.std.specs.Prelude.{◌≡◌};
    ghost use Rattle.fax_files.specs.declared.spool.SpoolFault.TheVariants.{NoMemory};

    ghost from_gives = { λ _ fault. fault ≡ NoMemory };

    fn from(_: AllocError) -> SpoolFault<'a> {
        SpoolFault::NoMemory
    }
}

/// The requests that bring the jobs of the plan's files in, one after the other, each with the next number.
/// All files are read before one is made.
///
/// # Errors
///
/// What is wrong with the words; else the first file at fault; or want of memory.
pub fn import_requests<'a>(
    rt: &HostRuntime,
    plan: &ImportPlan<'a>,
) -> Result<Vec<u8>, SpoolFault<'a>>
    ensures { MakesImports plan.now result }
{
    let first = match first_number(plan) {
        Ok(first) => first,
        Err(fault) => return Err(SpoolFault::Words(fault)),
    };
    let alloc = rt.alloc();
    let mut text = Vec::new(alloc);
    let mut number = first;
    for file in plan.files.as_slice() {
        let body = read_job(rt, file)?;
        let request = import_request(alloc, plan.client, number, body.as_slice())?;
        text.extend_from_slice(request.as_slice())?;
        number += 1;
    }
    Ok(text)
}

/// The bytes of a job's file.
fn read_job<'a>(rt: &HostRuntime, name: &'a str) -> Result<Vec<u8>, SpoolFault<'a>>
    ensures short { IfOk result (λ body. length body.items ≤ longest_body) }
    ensures named { IsNamed name.entry result }
{
    let mut body = Vec::new(rt.alloc());
    match read_some(rt, name, &mut body) {
        Ok(_) if body.len() as u64 <= LONGEST_BODY => Ok(body),
        Ok(_) => Err(SpoolFault::TooLarge(name)),
        Err(error) if error.kind() == ErrorKind::OutOfMemory => Err(SpoolFault::NoMemory),
        Err(_) => Err(SpoolFault::Unreadable(name)),
    }
}

/// Reads a file, and no more of it than tells that it is too long.
fn read_some(rt: &HostRuntime, name: &str, body: &mut Vec<u8>) -> io::Result<usize> {
    File::open(rt, name)?
        .take(LONGEST_BODY + 1)
        .read_to_end(body)
}

/// How a command ends where there are no requests.
pub fn spool_ending<'a>(fault: SpoolFault<'a>) -> Ending<'a>
    ensures status { result.status ≡ refused fault.entry }
    ensures says { spoken result ≡ spool_line fault.entry }
{
    match fault {
        SpoolFault::Words(fault) => Ending::usage(words_line(fault)),
        SpoolFault::Unreadable(name) => {
            Ending::fault(FaultLine::of("faxqd: cannot read ", Place::File(name)))
        }
        SpoolFault::TooLarge(name) => {
            Ending::fault(FaultLine::of("faxqd: too large ", Place::File(name)))
        }
        SpoolFault::NoMemory => Ending::failed("faxqd: no memory"),
    }
}

/// The line that tells what is wrong with the words.
fn words_line<'a>(fault: ImportFault) -> FaultLine<'a>
    ensures { spelled result ≡ words_line fault }
{
    FaultLine {
        what: "faxqd: bad ",
        place: Place::Nowhere,
        between: "",
        word: fault.word(),
    }
}
