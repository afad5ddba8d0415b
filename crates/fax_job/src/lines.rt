//! Key lines: lists of (tag, value).

ghost use Rattle.std.specs.Prelude.{◌≡◌};
ghost use Rattle.fax_job.specs.declared.lines.LineKind.TheVariants.{NoMemory};

use crate::line_text::{Line, LineText};
use std::alloc::{AllocError, AllocFailed, Global};
use std::marker::Model;
use thiserror::Error;

/// A list of tags with their values.
pub struct Lines {
    text: LineText,
}

// By hand, so that a proof lets it go in one step.
impl Drop for Lines {
    fn drop(self) {
        let Lines { text: _ } = self;
    }
}

impl Model for Lines {
    ghost use Rattle.std.specs.Prelude.{List};
    ghost use Rattle.fax_job.specs.Pair.{Pair, ArePairs};

    ghost Value = { List Pair };

    ghost view = { λ lines. lines.text };

    ghost invariant = { λ lines. ArePairs lines.text };
}

/// What is wrong with a line.
#[derive(Clone, Copy, Debug, PartialEq, Eq, Error)]
pub enum LineKind {
    /// The whole text isn't UTF-8.
    #[error("not text in UTF-8")]
    NotText,
    /// The line has no `:`.
    #[error("no colon")]
    NoColon,
    /// What stands before the `:` isn't 1 to 64 bytes of 33 to 126.
    #[error("a bad tag")]
    BadTag,
    /// A known tag occurs again.
    #[error("a known tag twice")]
    Twice,
    /// The value has a control character that isn't a tab.
    #[error("a bad value")]
    BadValue,
    /// A status is continued, and no line follows.
    #[error("a continued status without a next line")]
    OpenEnd,
    #[error("out of memory")]
    NoMemory,
}

/// The first fault of a text.
#[derive(Clone, Copy, Debug, PartialEq, Eq, Error)]
#[error("line {line}: {kind}")]
pub struct LineFault {
    /// The line, counted from 1; 0 for `NotText` and `NoMemory`, which have no line.
    pub line: u64,
    pub kind: LineKind,
}

impl LineKind {
    ghost use Rattle.std.specs.Prelude.{◌≡◌};
    ghost use Rattle.fax_job.specs.Refusal.{line_word};

    /// The word for it in a reply.
    pub fn word(self) -> &'static str
        ensures { result.now ≡ line_word self }
    {
        match self {
            LineKind::NotText => "not-text",
            LineKind::NoColon => "no-colon",
            LineKind::BadTag => "bad-tag",
            LineKind::Twice => "twice",
            LineKind::BadValue => "bad-value",
            LineKind::OpenEnd => "open-end",
            LineKind::NoMemory => "no-memory",
        }
    }
}

impl LineFault {
    pub(crate) const NO_MEMORY: LineFault = LineFault {
        line: 0,
        kind: LineKind::NoMemory,
    };
}

impl From<AllocError> for LineFault {
    ghost from_gives = { λ _ fault. fault ≡ record { line = 0; kind = NoMemory } };

    fn from(_error: AllocError) -> LineFault {
        LineFault::NO_MEMORY
    }
}

impl<T: Drop> From<AllocFailed<T>> for LineFault {
    ghost from_gives = { λ _ fault. fault ≡ record { line = 0; kind = NoMemory } };

    fn from(_error: AllocFailed<T>) -> LineFault {
        LineFault::NO_MEMORY
    }
}

impl Lines {
    ghost use Rattle.std.specs.Prelude.{◌≡◌, ◌<◌, ◌++◌, ◌∷◌, ◌&&◌, ◌==◌, [], true, false, Some, codes, length, find, slice_get, unwrap_or, OnOk, OnErr};
    ghost use Rattle.std.specs.Option.{option_copied};
    ghost use Rattle.std.specs.Str.{bytes_eq};
    ghost use Rattle.fax_job.specs.Pair.{pair, is_pair, ArePairs, has_tag, value_of};
    ghost use Rattle.fax_job.specs.Tag.{is_known};
    ghost use Rattle.fax_value.specs.Value.{IsStatus};

    /// No lines.
    pub fn new(alloc: Global) -> Lines
        ensures { result ≡ [] }
    {
        Lines {
            text: LineText::new(alloc),
        }
    }

    /// The lines of a text.
    pub(crate) fn from_text(text: LineText) -> Lines
        requires { ArePairs text }
        ensures { result ≡ text }
    {
        Lines { text }
    }

    /// The text that the lines stand in.
    pub(crate) fn as_text(&self) -> &LineText
        ensures lines { result.now ≡ self.now }
        ensures lawful { ArePairs self.now }
    {
        &self.text
    }

    pub fn len(&self) -> usize
        ensures { result ≡ length self.now }
    {
        self.text.len()
    }

    pub fn is_empty(&self) -> bool
        ensures { result ≡ (length self.now == 0) }
    {
        self.text.is_empty()
    }

    /// The line at an index, counted from 0.
    pub fn line(&self, index: usize) -> Line<'_>
        requires { index < length self.now }
        ensures { slice_get self.now index ≡ Some result }
    {
        self.text.line(index)
    }

    /// Adds a line at the end. A known tag may stand once.
    pub fn push(&mut self, tag: &str, value: &str) -> Result<(), AllocError>
        requires formed { is_pair (pair tag.now value.now) ≡ true }
        requires once { (is_known tag.now && has_tag tag.now self.old) ≡ false }
        ensures ok { OnOk result (self.new ≡ self.old ++ pair tag.now value.now ∷ []) }
        ensures err { OnErr result (self.new ≡ self.old) }
    {
        self.text.push(tag, value)?;
        Ok(())
    }

    /// Whether a line has that tag.
    pub fn has_tag(&self, tag: &str) -> bool
        ensures { result ≡ has_tag tag.now self.now }
    {
        self.find(tag).is_some()
    }

    /// The value of the first line with that tag.
    pub fn get(&self, tag: &str) -> Option<&str>
        ensures { option_copied result ≡ value_of tag.now self.now }
    {
        let line = self.find(tag)?;
        Some(line.value())
    }

    /// The status, which is the empty text where no line has it.
    pub(crate) fn status(&self) -> &str
        ensures text { result.now ≡ unwrap_or (value_of (codes "status") self.now) [] }
        ensures formed { IsStatus result.now }
    {
        // What holds of every list is known where a field is used.
        let _ = &self.text;
        self.get("status").unwrap_or("")
    }

    /// The first line with that tag.
    fn find(&self, tag: &str) -> Option<Line<'_>>
        ensures { result ≡ find (λ p. bytes_eq p.tag tag.now) self.now }
    {
        for index in 0..self.len() {
            let line = self.line(index);
            if line.tag() == tag {
                return Some(line);
            }
        }
        None
    }
}
