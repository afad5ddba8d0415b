//! Laws of what the tables mean.
//!
//! Such a function does nothing: its contract is the law. The statements stand in `specs/Kept.antt`,
//! `specs/Adopt.antt` and `specs/Meaning.antt`.

ghost use Rattle.fax_store.specs.Adopt.{QueuesAreTakeable};
ghost use Rattle.fax_store.specs.Kept.{TablesKeepOnce};
ghost use Rattle.fax_store.specs.Meaning.{RowsHaveOneMeaning};

/// Whatever the tables mean, a request number of a client has one kept reply at most.
pub fn tables_keep_once()
    ensures { TablesKeepOnce }
{}

/// A database with the tables of a queue isn't strange to a store where its rows mean one, whatever
/// its `calls` says.
pub fn queues_are_takeable()
    ensures { QueuesAreTakeable }
{}

/// The rows of a database, of either version, mean one queue and one list of kept replies and floors at most.
pub fn rows_have_one_meaning()
    ensures { RowsHaveOneMeaning }
{}
