//! The key lines of a job's times.

ghost use Rattle.std.specs.Prelude.{◌≡◌, ◌++◌, OnOk};
ghost use Rattle.std.specs.Fmt.{decimal};
ghost use Rattle.fax_job.specs.Pair.{pair};
ghost use Rattle.fax_job.specs.Spelling.{printed, printed_pair};
ghost use Rattle.fax_text.specs.Times.{times_lines};

use fax_job::Moment;
use itoa::Buffer;
use std::alloc::AllocError;

/// Adds the key lines of a job's times: when it came in, and when it ended, 0 until then.
///
/// # Errors
///
/// Out of memory.
pub fn push_times(text: &mut Vec<u8>, submitted: Moment, ended: Moment) -> Result<(), AllocError>
    ensures { OnOk result (text.new.items ≡ text.old.items ++ printed (times_lines submitted ended)) }
{
    push_line(text, "submitted", submitted.seconds())?;
    push_line(text, "ended", ended.seconds())?;
    Ok(())
}

/// Adds the key line of a number.
fn push_line(text: &mut Vec<u8>, tag: &str, number: u32) -> Result<(), AllocError>
    ensures { OnOk result (text.new.items ≡ text.old.items ++ printed_pair (pair tag.now (decimal number))) }
{
    text.extend_from_slice(tag.as_bytes())?;
    text.push(b':')?;
    text.extend_from_slice(Buffer::new().format(number).as_bytes())?;
    text.push(b'\n')?;
    Ok(())
}
