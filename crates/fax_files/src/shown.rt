//! What the setup and the controls of an office mean, in text.
ghost use Rattle.std.specs.Prelude.{◌≡◌, false};
ghost use Rattle.fax_files.specs.Shown.{IsShownOf, ShowsBoth, ShowsControls, ShowsSetup};

use crate::office::{OfficeFault, controls_of, read_file, setup_of};
use fax_dest::{FileFault, FileKind};
use fax_settings::{push_controls, push_setup, push_unused_controls, push_unused_settings};
use fax_text::OfficeFiles;
use std::alloc::Global;

/// What the files of an office mean.
#[derive(Drop)]
pub struct Shown {
    /// Each setting and each rule, and each line that isn't used.
    pub text: String,
    /// Whether a line isn't used.
    pub has_unused: bool,
}

/// The first fault of a text that isn't UTF-8.
const NOT_TEXT: FileFault = FileFault {
    line: 0,
    kind: FileKind::NotText,
};

/// What the files mean.
///
/// # Errors
///
/// A file that can't be read, the first fault of the setup or else of the controls, or out of memory.
pub fn show_office<'a>(rt: &HostRuntime, files: OfficeFiles<'a>) -> Result<Shown, OfficeFault<'a>>
    ensures { IsShownOf files.entry result }
{
    let setup = read_file(rt, files.setup)?;
    let controls = read_file(rt, files.controls)?;
    show_texts(rt.alloc(), setup.as_slice(), controls.as_slice())
}

/// What two texts mean.
fn show_texts<'a>(alloc: Global, setup: &[u8], controls: &[u8]) -> Result<Shown, OfficeFault<'a>>
    ensures { ShowsBoth setup.now controls.now result }
{
    let mut text = String::new(alloc);
    let is_setting_unused = show_setup(alloc, &mut text, setup)?;
    let is_control_unused = show_controls(alloc, &mut text, controls)?;
    Ok(Shown {
        text,
        has_unused: is_setting_unused || is_control_unused,
    })
}

/// Adds what a setup means and which lines of it aren't used. Returns whether there is one.
fn show_setup<'a>(alloc: Global, text: &mut String, setup: &[u8]) -> Result<bool, OfficeFault<'a>>
    ensures { ShowsSetup setup.now result }
{
    let Ok(source) = str::from_utf8(setup) else {
        return Err(OfficeFault::Setup(NOT_TEXT));
    };
    let setup = setup_of(alloc, setup)?;
    push_setup(text, &setup, source)?;
    Ok(push_unused_settings(text, source)?)
}

/// Adds what controls mean and which lines of them aren't used. Returns whether there is one.
fn show_controls<'a>(
    alloc: Global,
    text: &mut String,
    controls: &[u8],
) -> Result<bool, OfficeFault<'a>>
    ensures { ShowsControls controls.now result }
{
    let Ok(source) = str::from_utf8(controls) else {
        return Err(OfficeFault::Controls(NOT_TEXT));
    };
    let controls = controls_of(alloc, controls)?;
    push_controls(text, &controls)?;
    Ok(push_unused_controls(text, source)?)
}
