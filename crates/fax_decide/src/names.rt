//! Names in ascending order of their bytes, each once.

ghost use Rattle.std.specs.Prelude.{◌≡◌, ◌≤◌, [], length, IfOk, MatchOption, OnOk};
ghost use Rattle.std.specs.List.{insert};
ghost use Rattle.fax_run.specs.Modems.{with_name, with_names};

use fax_job::Name;
use std::alloc::{AllocError, Global};
use std::cmp::Ordering;

/// These names and the others, in order.
pub(crate) fn in_order(
    alloc: Global,
    some: &[Name],
    others: Vec<Name>,
) -> Result<Vec<Name>, AllocError>
    ensures { IfOk result (λ names. names.items
        ≡ with_names others.items (with_names some.now [])) }
{
    let mut names = in_order_of(alloc, some)?;
    for name in others {
        put_name(&mut names, name)?;
    }
    Ok(names)
}

/// These names, in order.
fn in_order_of(alloc: Global, some: &[Name]) -> Result<Vec<Name>, AllocError>
    ensures { IfOk result (λ names. names.items ≡ with_names some.now []) }
{
    let mut names = Vec::new(alloc);
    for name in some {
        put_name(&mut names, name.copy(alloc)?)?;
    }
    Ok(names)
}

/// Adds a name in its place, unless it is there.
fn put_name(names: &mut Vec<Name>, name: Name) -> Result<(), AllocError>
    ensures { OnOk result (names.new.items ≡ with_name name names.old.items) }
{
    match place(names.as_slice(), name.as_str()) {
        Some(at) => {
            names.insert(at, name)?;
            Ok(())
        }
        None => Ok(()),
    }
}

/// Where a name goes among these, or nowhere if it is there.
fn place(names: &[Name], name: &str) -> Option<usize>
    ensures { MatchOption result (with_name name.now names.now ≡ names.now) (λ at. (at ≤ length names.now)
        × (insert names.now at name.now ≡ with_name name.now names.now)) }
{
    for index in 0..names.len() {
        match name.cmp(names[index].as_str()) {
            Ordering::Less => return Some(index),
            Ordering::Equal => return None,
            Ordering::Greater => {}
        }
    }
    Some(names.len())
}
