//! The listing of jobs.

ghost use Rattle.std.specs.Prelude.{◌≡◌, ◌++◌, IfOk, OnOk, map, max, string_bytes};
ghost use Rattle.std.specs.List.Sorted.{IsStrictlyIncreasing};
ghost use Rattle.fax_hours.specs.Zone.{IsCivil};
ghost use Rattle.fax_text.specs.Civil.{civil_at};
ghost use Rattle.fax_text.specs.Column.{behind_spaces};
ghost use Rattle.fax_text.specs.Listing.{IsListing, letter_of, line_of, listing_of, number_of, progress, ratio, status_column, time_shown, time_text, who};

use crate::column::{push_left, push_right, push_shown, push_zeros};
use fax_hours::{Civil, Zone, civil_minute};
use fax_job::{Job, JobFields};
use itoa::Buffer;
use std::alloc::{AllocError, Global};

/// The names of the columns.
const HEADING: &[u8] =
    b"   JID Pri S Number               Tag              Pages     Dials TTS              Status\n";

/// Why there is no listing: memory ran out. The calendar has every moment that a job may have.
pub type ListFault = AllocError;

/// The listing of jobs with the numbers of their states, 1 to 8 by sendq(5), as text in ASCII. A heading
/// comes first, and then a line for each job in ascending order of the jobs' numbers, whatever their
/// order here. Each line ends with LF.
///
/// The columns have faxstat(1)'s names: the job's number, its priority, its state as one of the letters
/// `TPSBWRDF`, the number to dial, the job tag, the pages sent and all pages, the dials and their limit,
/// the moment before which the job doesn't go, as `YYYY-MM-DD HH:MM` in the zone, and the status.
/// A text is cut to its column, and `?` stands for a character that ASCII doesn't print.
///
/// # Errors
///
/// Want of memory.
pub fn list(alloc: Global, jobs: &[(Job, u8)], zone: &Zone) -> Result<Vec<u8>, ListFault>
    ensures listing { IfOk result (λ text. IsListing zone.now jobs.now text.items) }
    // Jobs whose numbers ascend have one listing, of these jobs as they stand.
    ensures ordered { IsStrictlyIncreasing (map number_of jobs.now) → IfOk result (λ text. text.items ≡ listing_of (time_shown zone.now) jobs.now) }
{
    let mut rows: Vec<&(Job, u8)> = jobs.iter().collect(alloc)?;
    rows.sort_by_key(|row| row.0.fields().job)?;
    let mut text = Vec::from_slice(alloc, HEADING)?;
    for row in rows.iter() {
        push_line(alloc, &mut text, row, zone)?;
    }
    Ok(text)
}

/// Adds the line of a job.
fn push_line(
    alloc: Global,
    text: &mut Vec<u8>,
    row: &(Job, u8),
    zone: &Zone,
) -> Result<(), AllocError>
    ensures { OnOk result (text.new.items ≡ text.old.items ++ line_of (time_shown zone.now) row.now) }
{
    let fields = row.0.fields();
    push_who(text, fields, row.1)?;
    push_progress(alloc, text, fields)?;
    push_time(text, time_of(&row.0, zone))?;
    push_status(text, fields.status.text())?;
    text.push(b'\n')?;
    Ok(())
}

/// Adds the columns that say which job it is, with a space behind each.
fn push_who(text: &mut Vec<u8>, job: &JobFields, state: u8) -> Result<(), AllocError>
    ensures { OnOk result (text.new.items ≡ text.old.items ++ who job.now state) }
{
    push_right(text, 6, Buffer::new().format(job.job))?;
    text.push(b' ')?;
    push_right(text, 3, Buffer::new().format(job.priority))?;
    text.push(b' ')?;
    text.push(letter_of(state))?;
    text.push(b' ')?;
    push_left(text, 20, job.dial.text())?;
    text.push(b' ')?;
    push_left(text, 12, job.jobtag.as_str())?;
    text.push(b' ')?;
    Ok(())
}

/// Adds the columns that say how far the job has come, with a space behind each.
fn push_progress(alloc: Global, text: &mut Vec<u8>, job: &JobFields) -> Result<(), AllocError>
    ensures { OnOk result (text.new.items ≡ text.old.items ++ progress job.now) }
{
    push_right(text, 9, ratio(alloc, job.npages, job.totpages)?.as_str())?;
    text.push(b' ')?;
    push_right(text, 9, ratio(alloc, job.totdials, job.maxdials)?.as_str())?;
    text.push(b' ')?;
    Ok(())
}

/// So many of so many.
fn ratio(alloc: Global, part: u16, whole: u16) -> Result<String, AllocError>
    ensures { IfOk result (λ text. string_bytes text ≡ ratio part whole) }
{
    format!(in alloc; "{part}:{whole}")
}

/// The letter of a state, by its number in sendq(5); `?` where no state has that number.
fn letter_of(state: u8) -> u8
    ensures { result ≡ letter_of state }
{
    match state {
        1 => b'T',
        2 => b'P',
        3 => b'S',
        4 => b'B',
        5 => b'W',
        6 => b'R',
        7 => b'D',
        8 => b'F',
        _ => b'?',
    }
}

/// What a clock in the zone shows when a job may go: at its time to send or its next time, whichever is
/// later.
fn time_of(job: &Job, zone: &Zone) -> Civil
    ensures civil { IsCivil zone.now (max job.now.tts job.now.next) result }
    // The same as one equation.
    ensures counted { result ≡ civil_at zone.now (max job.now.tts job.now.next) }
{
    let fields = job.fields();
    let seconds = fields.tts.seconds().max(fields.next);
    civil_minute(zone, u64::from(seconds)).unwrap()
}

/// Adds a date and a time of day.
fn push_time(text: &mut Vec<u8>, at: Civil) -> Result<(), AllocError>
    ensures { OnOk result (text.new.items ≡ text.old.items ++ time_text at) }
{
    push_zeros(text, 4, at.year.unsigned_abs())?;
    text.push(b'-')?;
    push_zeros(text, 2, u16::from(at.month))?;
    text.push(b'-')?;
    push_zeros(text, 2, u16::from(at.day))?;
    text.push(b' ')?;
    push_zeros(text, 2, u16::from(at.hour))?;
    text.push(b':')?;
    push_zeros(text, 2, u16::from(at.minute))?;
    Ok(())
}

/// Adds the column of a status, and the space in front of it, where the status isn't empty.
fn push_status(text: &mut Vec<u8>, status: &str) -> Result<(), AllocError>
    ensures { OnOk result (text.new.items ≡ text.old.items ++ behind_spaces (status_column status.now)) }
{
    if !status.is_empty() {
        text.push(b' ')?;
        push_shown(text, status)?;
    }
    Ok(())
}
