//! The setup and the destination controls that a command runs with.
ghost use Rattle.std.specs.Prelude.{◌≡◌};
ghost use Rattle.fax_files.specs.FaultLine.{file_line, office_line};
ghost use Rattle.fax_files.specs.Office.{ComesOf, ControlsOf, GivesControls, GivesSetup, IsOfficeOf, IsReadOf, SetupOf};
ghost use Rattle.fax_ending.specs.Ending.{spoken};
ghost use Rattle.fax_ending.specs.FaultLine.{spelled};

use fax_decide::Office;
use fax_dest::{Controls, FileFault, FileKind, Setup};
use fax_ending::{Ending, FaultLine, Place};
use fax_text::{OfficeFiles, Status};
use std::alloc::{AllocError, Global};
use std::fs;
use std::io::ErrorKind;

/// Why there is no office.
#[derive(Clone, Copy)]
pub enum OfficeFault<'a> {
    /// The file of this name can't be read.
    Unreadable(&'a str),
    /// The setup has this fault.
    Setup(FileFault),
    /// The controls have this fault.
    Controls(FileFault),
    NoMemory,
}

/// What the files say.
///
/// # Errors
///
/// The first fault, the setup's before the controls'.
pub fn read_office<'a>(rt: &HostRuntime, files: OfficeFiles<'a>) -> Result<Office, OfficeFault<'a>>
    ensures { ComesOf files.entry result }
{
    let setup = read_file(rt, files.setup);
    let controls = read_file(rt, files.controls);
    office_of(rt.alloc(), setup, controls)
}

impl From<AllocError> for OfficeFault<'_> {
    ghost use Rattle.std.specs.Prelude.{◌≡◌};
    ghost use Rattle.fax_files.specs.declared.office.OfficeFault.TheVariants.{NoMemory};

    ghost from_gives = { λ _ fault. fault ≡ NoMemory };

    fn from(_error: AllocError) -> Self {
        OfficeFault::NoMemory
    }
}

/// The bytes of a file, none if no file is named. That they are the file's is trusted; `checks/run commands` tries it.
pub(crate) fn read_file<'a>(
    rt: &HostRuntime,
    name: Option<&'a str>,
) -> Result<Vec<u8>, OfficeFault<'a>>
    ensures { IsReadOf name.entry result }
{
    let Some(name) = name else {
        return Ok(Vec::new(rt.alloc()));
    };
    match fs::read(rt, name) {
        Ok(bytes) => Ok(bytes),
        Err(error) if error.kind() == ErrorKind::OutOfMemory => Err(OfficeFault::NoMemory),
        Err(_) => Err(OfficeFault::Unreadable(name)),
    }
}

/// The office of two files that were read.
fn office_of<'a>(
    alloc: Global,
    setup: Result<Vec<u8>, OfficeFault<'a>>,
    controls: Result<Vec<u8>, OfficeFault<'a>>,
) -> Result<Office, OfficeFault<'a>>
    ensures { IsOfficeOf setup.entry controls.entry result }
{
    let setup = setup_in(alloc, &setup)?;
    match controls_in(alloc, &controls) {
        Ok(controls) => Ok(Office { setup, controls }),
        Err(fault) => Err(fault),
    }
}

/// The setup of a file that was read.
fn setup_in<'a>(
    alloc: Global,
    file: &Result<Vec<u8>, OfficeFault<'a>>,
) -> Result<Setup, OfficeFault<'a>>
    ensures { SetupOf file.now result }
{
    match file {
        Ok(bytes) => setup_of(alloc, bytes.as_slice()),
        Err(fault) => Err(*fault),
    }
}

/// The setup that a text says.
pub(crate) fn setup_of<'a>(alloc: Global, text: &[u8]) -> Result<Setup, OfficeFault<'a>>
    ensures { GivesSetup text.now result }
{
    match Setup::read(alloc, text) {
        Ok(setup) => Ok(setup),
        Err(fault) if fault.kind == FileKind::NoMemory => Err(OfficeFault::NoMemory),
        Err(fault) => Err(OfficeFault::Setup(fault)),
    }
}

/// The controls of a file that was read.
fn controls_in<'a>(
    alloc: Global,
    file: &Result<Vec<u8>, OfficeFault<'a>>,
) -> Result<Controls, OfficeFault<'a>>
    ensures { ControlsOf file.now result }
{
    match file {
        Ok(bytes) => controls_of(alloc, bytes.as_slice()),
        Err(fault) => Err(*fault),
    }
}

/// The controls that a text says.
pub(crate) fn controls_of<'a>(alloc: Global, text: &[u8]) -> Result<Controls, OfficeFault<'a>>
    ensures { GivesControls text.now result }
{
    match Controls::read(alloc, text) {
        Ok(controls) => Ok(controls),
        Err(fault) if fault.kind == FileKind::NoMemory => Err(OfficeFault::NoMemory),
        Err(fault) => Err(OfficeFault::Controls(fault)),
    }
}

/// How a command ends where there is no office.
pub fn office_ending<'a>(fault: OfficeFault<'a>) -> Ending<'a>
    ensures status { result.status ≡ Status.Fault }
    ensures says { spoken result ≡ office_line fault.entry }
{
    Ending::fault(line_of(fault))
}

/// The line that tells why there is none.
fn line_of<'a>(fault: OfficeFault<'a>) -> FaultLine<'a>
    ensures { spelled result ≡ office_line fault.entry }
{
    match fault {
        OfficeFault::Unreadable(name) => FaultLine::of("faxqd: cannot read ", Place::File(name)),
        OfficeFault::Setup(fault) => file_line("faxqd: setup line ", fault),
        OfficeFault::Controls(fault) => file_line("faxqd: controls line ", fault),
        OfficeFault::NoMemory => FaultLine::of("faxqd: no memory", Place::Nowhere),
    }
}

/// The line that tells which line of a file is at fault, and why.
fn file_line<'a>(what: &'a str, fault: FileFault) -> FaultLine<'a>
    ensures { spelled result ≡ file_line what.now fault }
{
    FaultLine {
        what,
        place: Place::Number(fault.line),
        between: ": ",
        word: fault.kind.word(),
    }
}
