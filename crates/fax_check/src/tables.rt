//! The tables, the queries whose rows are checked, and the first row of a table that isn't as it has to be.

ghost use Rattle.std.specs.Prelude.{◌≡◌};
ghost use Rattle.fax_check.specs.Whole.{table_name, table_of, text_of};

// ---- the queries for all rows of a table: the last column is the rowid, where the first isn't

const SELECT_ALL_JOBS: &str = "SELECT job, dial, modem, jobtag, status, tts, killtime, \
    priority, npages, totpages, ntries, tottries, maxtries, ndials, totdials, maxdials, phase, wish, next, extra \
    FROM jobs";

const SELECT_ALL_GRANTS: &str =
    "SELECT id, job, modem, first_page, last_page, call, pages, shut FROM grants";

/// The times, each with the phase of its job, which is NULL where there is no such job.
const SELECT_ALL_TIMES: &str = "SELECT times.job, times.submitted, times.ended, jobs.phase \
    FROM times LEFT JOIN jobs ON jobs.job = times.job";

/// The jobs, each with the number of its times, which is NULL where there are none.
const SELECT_ALL_TIMED: &str =
    "SELECT jobs.job, times.job FROM jobs LEFT JOIN times ON times.job = jobs.job";

/// The grants, each with the number of its job, which is NULL where there is no such job.
const SELECT_ALL_OWNED: &str =
    "SELECT grants.id, jobs.job FROM grants LEFT JOIN jobs ON jobs.job = grants.job";

pub(crate) const SELECT_ALL_HOLDS: &str = "SELECT modem, job, id, rowid FROM holds";

const SELECT_ALL_DOWN: &str = "SELECT modem, rowid FROM down";

const SELECT_ALL_REPLIES: &str = "SELECT client, number, said, status, body, rowid FROM replies";

const SELECT_ALL_FLOORS: &str = "SELECT client, upto, rowid FROM floors";

const SELECT_ALL_CALLS: &str = "SELECT dial, open, rowid FROM calls";

/// A table of a queue's database.
#[derive(Clone, Copy, Debug, PartialEq, Eq)]
pub enum Table {
    Jobs,
    Grants,
    Times,
    Holds,
    Down,
    Replies,
    Floors,
    Calls,
    Meta,
}

/// A query whose rows are read one at a time.
#[derive(Clone, Copy)]
pub(crate) enum Query {
    Jobs,
    Grants,
    /// The times, with the phases of their jobs.
    Times,
    /// The jobs, with the numbers of their times.
    Timed,
    /// The grants, with the numbers of their jobs.
    Owned,
    Down,
    Replies,
    Floors,
    Calls,
}

/// The queries, in the order in which they are run.
pub(crate) static PASSED: [Query; 9] = [
    Query::Grants,
    Query::Jobs,
    Query::Times,
    Query::Timed,
    Query::Owned,
    Query::Down,
    Query::Replies,
    Query::Floors,
    Query::Calls,
];

/// A row that isn't as it has to be, or that is missing.
#[derive(Clone, Copy, Debug, PartialEq, Eq)]
pub struct Flaw {
    /// Its table.
    pub table: Table,
    /// Its rowid: the number of a job or a grant, also where a row of `times` is missing; 1 in meta; none where a row of
    /// `calls` is missing.
    pub row: Option<i64>,
}

impl Table {
    /// Its name.
    pub fn name(self) -> &'static str
        ensures { result.now ≡ table_name self }
    {
        match self {
            Table::Jobs => "jobs",
            Table::Grants => "grants",
            Table::Times => "times",
            Table::Holds => "holds",
            Table::Down => "down",
            Table::Replies => "replies",
            Table::Floors => "floors",
            Table::Calls => "calls",
            Table::Meta => "meta",
        }
    }
}

impl Query {
    /// The table that it checks.
    pub(crate) fn table(self) -> Table
        ensures { result ≡ table_of self }
    {
        match self {
            Query::Jobs => Table::Jobs,
            Query::Grants | Query::Owned => Table::Grants,
            Query::Times | Query::Timed => Table::Times,
            Query::Down => Table::Down,
            Query::Replies => Table::Replies,
            Query::Floors => Table::Floors,
            Query::Calls => Table::Calls,
        }
    }

    /// Its text.
    pub(crate) fn text(self) -> &'static str
        ensures { result.now ≡ text_of self }
    {
        match self {
            Query::Jobs => SELECT_ALL_JOBS,
            Query::Grants => SELECT_ALL_GRANTS,
            Query::Times => SELECT_ALL_TIMES,
            Query::Timed => SELECT_ALL_TIMED,
            Query::Owned => SELECT_ALL_OWNED,
            Query::Down => SELECT_ALL_DOWN,
            Query::Replies => SELECT_ALL_REPLIES,
            Query::Floors => SELECT_ALL_FLOORS,
            Query::Calls => SELECT_ALL_CALLS,
        }
    }
}
