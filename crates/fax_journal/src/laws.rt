//! Theorems on what a database means.
//!
//! Such a function does nothing: its contract is the theorem. The statements are in `specs/Meaning.antt`.

ghost use Rattle.fax_journal.specs.Meaning.{FilesHaveOneMeaning, FoundMeansTheSame};

/// A database means one entry at most, and one answer under each key.
pub fn files_have_one_meaning()
    ensures { FilesHaveOneMeaning }
{}

/// What a crash left means the same in a connection that finds it.
pub fn found_means_the_same()
    ensures { FoundMeansTheSame }
{}
