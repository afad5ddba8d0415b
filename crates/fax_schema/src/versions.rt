//! Which databases have the tables of the second and of the third version.

ghost use Rattle.std.specs.Prelude.{◌≡◌};
ghost use Rattle.fax_schema.specs.Schema.{are_with, has_floors, has_times};

use sqlite_schema::schema::{Schema, Table};

/// Whether one of these tables has this name.
fn are_with(mut tables: &[Table], name: &str) -> bool
    ensures { result ≡ are_with name.now tables.entry.now }
{
    while let [table, rest @ ..] = tables {
        if table.name.as_slice() == name.as_bytes() {
            return true;
        }
        tables = rest;
    }
    false
}

/// Whether a database has a table of floors, as from the second version on.
pub fn has_floors(schema: &Schema) -> bool
    ensures { result ≡ has_floors schema.now }
{
    are_with(schema.tables.as_slice(), "floors")
}

/// Whether a database has a table of times, as in the third version.
pub fn has_times(schema: &Schema) -> bool
    ensures { result ≡ has_times schema.now }
{
    are_with(schema.tables.as_slice(), "times")
}
