//! Reasons made of any text.

use fax_worker::Reason;
use std::alloc::{AllocError, Global};

/// How many bytes a reason may have.
const REASON_LIMIT: usize = 200;

/// The reason that a text gives: its front of 200 bytes at most, with a space for each control character, and without
/// spaces in front and `\` at the end.
pub(crate) fn reason_of(alloc: Global, text: &str) -> Result<Reason, AllocError> {
    let clean = cleaned(alloc, text.trim_start())?;
    let kept = clean.as_str().trim_start().trim_end_matches('\\');
    match Reason::read(alloc, kept)? {
        Some(reason) => Ok(reason),
        None => Ok(Reason::none()),
    }
}

fn cleaned(alloc: Global, text: &str) -> Result<String, AllocError> {
    let mut clean = String::new(alloc);
    for c in text.chars() {
        if REASON_LIMIT < clean.len() + c.len_utf8() {
            break;
        }
        clean.push(if c.is_control() { ' ' } else { c })?;
    }
    Ok(clean)
}
