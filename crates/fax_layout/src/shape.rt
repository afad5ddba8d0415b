//! What tables and indexes are, and layouts of them.

use sqlite_schema::schema::Kind;
use sqlite_value::keys::Order;

/// What a table is. Its one check may be that it has one row, whose first column is 1.
pub struct Shape {
    pub name: &'static str,
    pub columns: &'static [(&'static str, Kind)],
    pub key: Option<usize>,
    pub primary: &'static [usize],
    pub uniques: &'static [&'static [usize]],
    pub has_one_row: bool,
}

/// What an index is: its name and its places, each of which ascends by its bytes.
pub struct IndexShape {
    pub name: &'static str,
    pub places: &'static [usize],
}

/// A table or an index, which takes one tree of its database.
pub enum Part {
    Table(Shape),
    /// The index that a key of the table before it has.
    Key(IndexShape),
    /// An index by which rows of the table in that tree are found. It holds no rule.
    Index(IndexShape, u64),
}

/// What a database has, in the order in which it was made: each part in the tree of its place.
pub type Layout = &'static [&'static [Part]];

pub(crate) const PLAIN: Order = Order { digits: 0 };
