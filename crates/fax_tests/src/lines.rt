//! A status of several lines, which no job of the queue has.
use fax_job::{Status, write_lines};
use fax_lines::read_lines;
use std::alloc::Global;
use std::test::Fail;

/// Whether a text says this status, and is written as it was read.
fn says(alloc: Global, text: &[u8], status: &str) -> Result<bool, Fail> {
    let lines = read_lines(alloc, text)?;
    let written = write_lines(alloc, &lines)?;
    Ok(lines.get("status") == Some(status) && written.as_slice() == text)
}

/// Whether a text is read as a status, and shown as it was read.
fn is_status(alloc: Global, text: &str) -> bool {
    match Status::read(alloc, text) {
        Ok(status) => status.text() == text,
        Err(_) => false,
    }
}

#[test]
fn a_status_goes_on(rt: HostRuntime) -> Result<(), Fail> {
    let once = says(rt.alloc(), b"status:a\\\nnumber:5\n", "a\nnumber:5")?;
    assert_eq!(rt; once, true);
    let twice = says(rt.alloc(), b"status:\\\n# one\\\n\nnumber:5\n", "\n# one\n")?;
    assert_eq!(rt; twice, true);
    assert_eq!(rt; is_status(rt.alloc(), "No\ncarrier"), true);
    assert_eq!(rt; is_status(rt.alloc(), " x"), false);
    assert_eq!(rt; is_status(rt.alloc(), "x\\"), false);
    Ok(())
}
