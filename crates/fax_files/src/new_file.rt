//! The file of a new queue: an empty database with small pages.
use crate::database::OpenFault;
use std::fs::{self, File, OpenOptions};
use std::io::{self, ErrorKind, Write};
use std::os::unix::fs::{MetadataExt, OpenOptionsExt};

/// How many bytes a page of a new queue has. A commit writes whole pages, and changes little in each.
const PAGE: usize = 512;

/// Makes the file of this name an empty database, where nothing has that name. It appears whole or not at all.
///
/// It is written under another name beside it and renamed. Whoever writes holds a lock, so that of two starts none
/// replaces what the other has made.
pub fn make_file(rt: &HostRuntime, name: &str) -> Result<(), OpenFault> {
    if is_file_name(name) && is_new(rt, name)? {
        make_new(rt, name)?;
    }
    Ok(())
}

fn make_new(rt: &HostRuntime, name: &str) -> io::Result<()> {
    let beside = format!(in rt.alloc(); "{name}-empty")?;
    let mut file = lock(rt, beside.as_str())?;
    let made = write_and_rename(rt, &mut file, beside.as_str(), name);
    if made.is_err() {
        let _ = fs::remove_file(rt, beside.as_str());
    }
    made
}

/// Whether the engine takes this for the name of a file.
pub(crate) fn is_file_name(name: &str) -> bool {
    !name.is_empty() && name != ":memory:" && !name.starts_with("file:")
}

/// Whether there is neither a file of this name nor a log or a journal of one.
fn is_new(rt: &HostRuntime, name: &str) -> io::Result<bool> {
    for suffix in ["", "-wal", "-journal"] {
        let path = format!(in rt.alloc(); "{name}{suffix}")?;
        match fs::symlink_metadata(rt, path.as_str()) {
            Ok(_) => return Ok(false),
            Err(error) if error.kind() == ErrorKind::NotFound => {}
            Err(error) => return Err(error),
        }
    }
    Ok(true)
}

/// The file of this name, which is made if it is missing, for this start alone. One that is longer than what a start
/// writes isn't of a start that was stopped, and stays as it is.
fn lock(rt: &HostRuntime, path: &str) -> io::Result<File> {
    let file = OpenOptions::new()
        .write(true)
        .create(true)
        .mode(0o644)
        .open(rt, path)?;
    file.try_lock()?;
    let (locked, named) = (file.metadata()?, fs::symlink_metadata(rt, path)?);
    // Another start may have renamed or removed it before the lock was free.
    let is_named = locked.dev() == named.dev() && locked.ino() == named.ino();
    if !is_named || locked.len() > PAGE as u64 {
        return Err(ErrorKind::AlreadyExists.into());
    }
    Ok(file)
}

/// Writes the locked file, and gives it its name, unless something has that name by now.
fn write_and_rename(rt: &HostRuntime, file: &mut File, path: &str, name: &str) -> io::Result<()> {
    file.set_len(0)?;
    file.write_all(&empty_database())?;
    file.sync_all()?;
    let mut folder = fs::canonicalize(rt, path)?;
    folder.pop();
    let folder = File::open(rt, folder.as_str())?;
    if !is_new(rt, name)? {
        return fs::remove_file(rt, path);
    }
    fs::rename(rt, path, name)?;
    folder.sync_all()
}

/// A database without tables, in one page, as sqlite3 writes it (https://www.sqlite.org/fileformat2.html).
fn empty_database() -> [u8; PAGE] {
    let size = (PAGE as u16).to_be_bytes();
    let mut page = [0; PAGE];
    page[..16].copy_from_slice(b"SQLite format 3\0");
    page[16..18].copy_from_slice(&size);
    page[18..20].copy_from_slice(&[2, 2]); // it is written by a log
    page[21..24].copy_from_slice(&[64, 32, 32]); // fractions of a page, which the format fixes
    page[24..28].copy_from_slice(&2u32.to_be_bytes()); // its changes
    page[28..32].copy_from_slice(&1u32.to_be_bytes()); // its pages
    page[40..44].copy_from_slice(&1u32.to_be_bytes()); // changes of its schema
    page[92..96].copy_from_slice(&2u32.to_be_bytes()); // the change at which the version was noted
    page[96..100].copy_from_slice(&3_040_001u32.to_be_bytes()); // the version of sqlite3
    page[100] = 13; // a page of a table, with no rows
    page[105..107].copy_from_slice(&size); // where its rows begin
    page
}
