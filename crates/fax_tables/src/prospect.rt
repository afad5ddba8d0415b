//! A job that waits, as the choice looks at it.

ghost use Rattle.std.specs.Prelude.{◌≡◌, IfOk};
ghost use Rattle.fax_job.specs.Job.{IsLawful};
ghost use Rattle.fax_job.specs.declared.job.JobFields.{JobFields as Fields};
ghost use Rattle.fax_tables.specs.Fault.{OrUnavailable};
ghost use Rattle.fax_tables.specs.Job.{IsFormed, asked_shown, prospect, prospect_shown};
ghost use Rattle.fax_tables.specs.Row.{HasValues};

use crate::fault::StoreFault;
use crate::jobs::{dial_at, priority_at};
use crate::row::{moment_at, name_at, number_at};
use fax_job::{Dial, Moment, Name};
use sqlite::Row;
use std::alloc::Global;

/// What the choice asks of a job that waits: which it is, to which number it goes, which modems it may have, and where it
/// stands in the order of the choice.
#[derive(Drop)]
pub struct Prospect {
    /// The job's number, from 1 to 999999.
    pub job: u32,
    pub dial: Dial,
    /// A modem's name, the name of a class of modems, or `any`.
    pub modem: Name,
    /// Lower goes first.
    pub priority: u8,
    /// The time to send. The earlier goes first.
    pub tts: Moment,
}

/// The prospect in a row of its columns.
pub fn prospect_in(alloc: Global, row: &Row) -> Result<Prospect, StoreFault>
    ensures found { (job : Fields) → row.now ≡ prospect_shown job → IsLawful job → IsFormed job
        → OrUnavailable result (λ found. found ≡ prospect job) }
    ensures stands { IfOk result (λ found. HasValues row.now 0 (asked_shown found)) }
{
    Ok(Prospect {
        job: number_at(row, 0)?,
        dial: dial_at(alloc, row, 1)?,
        modem: name_at(alloc, row, 2)?,
        priority: priority_at(row, 3)?,
        tts: moment_at(row, 4)?,
    })
}
