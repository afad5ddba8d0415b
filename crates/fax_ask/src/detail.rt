//! What is told with the refusals that say more than their number and word.

use crate::answer::Handed;
use fax_job::BodyFault;

/// A refusal with what is told of it.
#[derive(Clone, Copy)]
pub enum Detail<'a> {
    /// A body at fault: the kind of the fault, and its line where it has one.
    Body(BodyFault),
    /// A destination that isn't served, with the notice of its rule.
    Rejected { notice: &'a str },
    /// A modem that holds a grant: whether a call was reported on it, and the grant as it was told.
    Held { called: bool, handed: Handed<'a> },
    /// A page that isn't the next one: how many pages of the job are confirmed.
    PageOrder { npages: u16 },
}
