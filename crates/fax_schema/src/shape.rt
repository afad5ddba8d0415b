//! The tables and indexes of a queue, and the layouts in which its database has them.

use fax_layout::{IndexShape, Layout, Part, Shape};
use sqlite_schema::schema::Kind;

/// The tree of the jobs, which are made first.
const JOBS_TREE: u64 = 0;

/// The tree of the grants, which are made next.
const GRANTS_TREE: u64 = 1;

const JOBS: Part = Part::Table(Shape {
    name: "jobs",
    columns: &[
        ("job", Kind::Integer),
        ("dial", Kind::Text),
        ("modem", Kind::Text),
        ("jobtag", Kind::Text),
        ("status", Kind::Text),
        ("extra", Kind::Text),
        ("tts", Kind::Integer),
        ("killtime", Kind::Integer),
        ("priority", Kind::Integer),
        ("npages", Kind::Integer),
        ("totpages", Kind::Integer),
        ("ntries", Kind::Integer),
        ("tottries", Kind::Integer),
        ("maxtries", Kind::Integer),
        ("ndials", Kind::Integer),
        ("totdials", Kind::Integer),
        ("maxdials", Kind::Integer),
        ("phase", Kind::Integer),
        ("wish", Kind::Integer),
        ("next", Kind::Integer),
    ],
    key: Some(0),
    primary: &[0],
    uniques: &[],
    has_one_row: false,
});

const GRANTS: Part = Part::Table(Shape {
    name: "grants",
    columns: &[
        ("id", Kind::Integer),
        ("job", Kind::Integer),
        ("modem", Kind::Text),
        ("first_page", Kind::Integer),
        ("last_page", Kind::Integer),
        ("call", Kind::Integer),
        ("pages", Kind::Integer),
        ("shut", Kind::Integer),
    ],
    key: Some(0),
    primary: &[0],
    uniques: &[],
    has_one_row: false,
});

const HOLDS: Part = Part::Table(Shape {
    name: "holds",
    columns: &[
        ("modem", Kind::Text),
        ("job", Kind::Integer),
        ("id", Kind::Integer),
    ],
    key: None,
    primary: &[1],
    uniques: &[&[1], &[2], &[3]],
    has_one_row: false,
});

const HOLDS_MODEM: Part = Part::Key(IndexShape {
    name: "sqlite_autoindex_holds_1",
    places: &[1],
});

const HOLDS_JOB: Part = Part::Key(IndexShape {
    name: "sqlite_autoindex_holds_2",
    places: &[2],
});

const HOLDS_ID: Part = Part::Key(IndexShape {
    name: "sqlite_autoindex_holds_3",
    places: &[3],
});

const DOWN: Part = Part::Table(Shape {
    name: "down",
    columns: &[("modem", Kind::Text)],
    key: None,
    primary: &[1],
    uniques: &[&[1]],
    has_one_row: false,
});

const DOWN_MODEM: Part = Part::Key(IndexShape {
    name: "sqlite_autoindex_down_1",
    places: &[1],
});

const REPLIES: Part = Part::Table(Shape {
    name: "replies",
    columns: &[
        ("client", Kind::Text),
        ("number", Kind::Integer),
        ("said", Kind::Blob),
        ("status", Kind::Integer),
        ("body", Kind::Blob),
    ],
    key: None,
    primary: &[1, 2],
    uniques: &[&[1, 2]],
    has_one_row: false,
});

const REPLIES_KEY: Part = Part::Key(IndexShape {
    name: "sqlite_autoindex_replies_1",
    places: &[1, 2],
});

const META: Part = Part::Table(Shape {
    name: "meta",
    columns: &[
        ("one", Kind::Integer),
        ("clock", Kind::Integer),
        ("next_job", Kind::Integer),
        ("next_grant", Kind::Integer),
        ("version", Kind::Integer),
    ],
    key: Some(0),
    primary: &[0],
    uniques: &[],
    has_one_row: true,
});

const FLOORS: Part = Part::Table(Shape {
    name: "floors",
    columns: &[("client", Kind::Text), ("upto", Kind::Integer)],
    key: None,
    primary: &[1],
    uniques: &[&[1]],
    has_one_row: false,
});

const FLOORS_CLIENT: Part = Part::Key(IndexShape {
    name: "sqlite_autoindex_floors_1",
    places: &[1],
});

const TIMES: Part = Part::Table(Shape {
    name: "times",
    columns: &[
        ("job", Kind::Integer),
        ("submitted", Kind::Integer),
        ("ended", Kind::Integer),
    ],
    key: Some(0),
    primary: &[0],
    uniques: &[],
    has_one_row: false,
});

const CALLS: Part = Part::Table(Shape {
    name: "calls",
    columns: &[("dial", Kind::Text), ("open", Kind::Integer)],
    key: None,
    primary: &[1],
    uniques: &[&[1]],
    has_one_row: false,
});

const CALLS_DIAL: Part = Part::Key(IndexShape {
    name: "sqlite_autoindex_calls_1",
    places: &[1],
});

// By phase and kill time, for those that expire.
const KILLTIME: Part = Part::Index(
    IndexShape {
        name: "jobs_by_killtime",
        places: &[18, 8],
    },
    JOBS_TREE,
);

// In the order of the choice, with all else that it asks of a job.
const CHOICE: Part = Part::Index(
    IndexShape {
        name: "jobs_by_choice",
        places: &[18, 9, 7, 0, 20, 8, 2, 3],
    },
    JOBS_TREE,
);

// As stores made it before.
const OLDER_CHOICE: Part = Part::Index(
    IndexShape {
        name: "jobs_by_choice",
        places: &[18, 9, 7],
    },
    JOBS_TREE,
);

// The grants of a job.
const BY_JOB: Part = Part::Index(
    IndexShape {
        name: "grants_by_job",
        places: &[2],
    },
    GRANTS_TREE,
);

// ---- what is made together

/// The six tables of the first version.
const FIRST: &[Part] = &[
    JOBS,
    GRANTS,
    HOLDS,
    HOLDS_MODEM,
    HOLDS_JOB,
    HOLDS_ID,
    DOWN,
    DOWN_MODEM,
    REPLIES,
    REPLIES_KEY,
    META,
];

/// What the second version has beside them.
const SECOND: &[Part] = &[FLOORS, FLOORS_CLIENT];

/// What the third version has beside those.
const THIRD: &[Part] = &[TIMES];

/// The indexes by which jobs and grants are found.
const INDEXES: &[Part] = &[KILLTIME, CHOICE, BY_JOB];

/// Those of jobs alone, as stores made them before.
const JOB_INDEXES: &[Part] = &[KILLTIME, CHOICE];

/// As stores made them before that.
const OLDER_INDEXES: &[Part] = &[KILLTIME, OLDER_CHOICE];

/// The calls, with the index of their key.
const COUNTS: &[Part] = &[CALLS, CALLS_DIAL];

// ---- the first version

pub(crate) const FIRST_BARE: Layout = &[FIRST];

pub(crate) const FIRST_CORE: Layout = &[FIRST, JOB_INDEXES];

pub(crate) const FIRST_OLDER_CORE: Layout = &[FIRST, OLDER_INDEXES];

pub(crate) const FIRST_TABLES: Layout = &[FIRST, JOB_INDEXES, COUNTS];

pub(crate) const FIRST_OLDER: Layout = &[FIRST, OLDER_INDEXES, COUNTS];

pub(crate) const FIRST_BARE_CALLS: Layout = &[FIRST, COUNTS];

// VACUUM moves the indexes behind the tables.
pub(crate) const FIRST_VACUUMED: Layout = &[FIRST, COUNTS, JOB_INDEXES];

pub(crate) const FIRST_OLDER_VACUUMED: Layout = &[FIRST, COUNTS, OLDER_INDEXES];

// ---- the second version

pub(crate) const SECOND_BARE: Layout = &[FIRST, SECOND];

pub(crate) const SECOND_CORE: Layout = &[FIRST, SECOND, JOB_INDEXES];

pub(crate) const SECOND_TABLES: Layout = &[FIRST, SECOND, JOB_INDEXES, COUNTS];

pub(crate) const SECOND_BARE_CALLS: Layout = &[FIRST, SECOND, COUNTS];

pub(crate) const SECOND_VACUUMED: Layout = &[FIRST, SECOND, COUNTS, JOB_INDEXES];

// ---- the third version

pub(crate) const BARE: Layout = &[FIRST, SECOND, THIRD];

pub(crate) const CORE: Layout = &[FIRST, SECOND, THIRD, INDEXES];

/// All that a store makes.
pub(crate) const OURS: Layout = &[FIRST, SECOND, THIRD, INDEXES, COUNTS];

pub(crate) const BARE_CALLS: Layout = &[FIRST, SECOND, THIRD, COUNTS];

pub(crate) const VACUUMED: Layout = &[FIRST, SECOND, THIRD, COUNTS, INDEXES];
