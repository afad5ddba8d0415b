//! The tables of a journal, and the layouts in which its database has them.

use fax_layout::{IndexShape, Layout, Part, Shape};
use sqlite_schema::schema::Kind;

const JOURNAL: Part = Part::Table(Shape {
    name: "journal",
    columns: &[
        ("one", Kind::Integer),
        ("client", Kind::Text),
        ("last_number", Kind::Integer),
        ("unanswered", Kind::Integer),
        ("number", Kind::Integer),
        ("path", Kind::Text),
        ("body", Kind::Blob),
        ("keyed", Kind::Integer),
        ("answer_key", Kind::Text),
        ("holds", Kind::Integer),
        ("grant_id", Kind::Integer),
        ("job", Kind::Integer),
        ("dial", Kind::Text),
        ("first_page", Kind::Integer),
        ("last_page", Kind::Integer),
        ("call", Kind::Integer),
        ("pages", Kind::Integer),
    ],
    key: Some(0),
    primary: &[0],
    uniques: &[],
    has_one_row: true,
});

const ANSWERS: Part = Part::Table(Shape {
    name: "answers",
    columns: &[("answer_key", Kind::Text), ("answer", Kind::Blob)],
    key: None,
    primary: &[1],
    uniques: &[&[1]],
    has_one_row: false,
});

const ANSWERS_KEY: Part = Part::Key(IndexShape {
    name: "sqlite_autoindex_answers_1",
    places: &[1],
});

/// What is made first.
const FIRST: &[Part] = &[JOURNAL];

/// What is made next.
const NEXT: &[Part] = &[ANSWERS, ANSWERS_KEY];

/// What a crash may leave between the two.
pub(crate) const BARE: Layout = &[FIRST];

pub(crate) const OURS: Layout = &[FIRST, NEXT];
