//! Laws of the definitions: those of runs, and one of what a crash leaves.
//!
//! Such a function changes nothing: its contract is the law.

ghost use Rattle.fax_once.specs.Stop.{OnlyAcceptedMakeRows};

pub use fax_run::laws::{
    accepted_once, counters, each_has_verdict, grants_stay, no_page_twice,
    no_verdict_is_unavailable, one_run, one_verdict, progress, repeats, repeats_get_their_reply,
    sessions, split,
};

/// Only what is accepted makes rows: a refusal, a view and a repeat leave none that a crash could find.
pub fn only_accepted_make_rows()
    ensures { OnlyAcceptedMakeRows }
{}
