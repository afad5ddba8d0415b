//! What rows mean that are each as they have to be, and what rows are that mean a consistent queue.
//!
//! Such a function does nothing: its contract is the law. The statements stand in `specs/Sound.antt`,
//! `specs/Meant.antt` and `specs/Consistent.antt`.

ghost use Rattle.fax_check.specs.Consistent.{Consistent, RunsStayConsistent};
ghost use Rattle.fax_core.specs.Queue.{empty_queue};
ghost use Rattle.fax_check.specs.Meant.{HoldRowsAreRight, SoundRowsAreWhole};
ghost use Rattle.fax_check.specs.Sound.{WholeRowsAreSound};

use fax_core::laws::{only_the_over_leave, the_clock};

/// Where each row is as it has to be, the rows mean a consistent queue.
pub fn whole_rows_are_sound()
    ensures { WholeRowsAreSound }
{}

/// Where the rows mean a sound queue, each row of `holds` is a right holder's.
pub fn hold_rows_are_right()
    ensures { HoldRowsAreRight }
{}

/// Where they mean a consistent queue, all rows are whole, whatever right holders the rows of `holds` have.
pub fn sound_rows_are_whole()
    ensures { SoundRowsAreWhole }
{}

/// The empty queue is consistent, and every run leaves a consistent queue consistent. So from a file in which
/// [`crate::check`] finds no flaw, no run of the machine makes one in which it finds one.
pub fn stay_consistent()
    ensures empty { Consistent empty_queue }
    ensures runs { RunsStayConsistent }
{
    only_the_over_leave();
    the_clock();
}
