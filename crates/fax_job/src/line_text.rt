//! Lines as one text with places in it. A line takes what its tag and its value take, and twelve bytes.

ghost use Rattle.std.specs.Prelude.{◌≡◌, ◌<◌, ◌++◌, ◌∷◌, ◌==◌, [], Some, length, slice_get, IfOk, OnOk, OnErr};
ghost use Rattle.std.specs.Str.{IsUtf8};
ghost use Rattle.std.specs.String.{string_bytes};
ghost use Rattle.fax_job.specs.Pair.{pair};
ghost use Rattle.fax_job.specs.LineText.{pair_at, IsPlace, Keeps};

use std::alloc::{AllocError, Global};
use std::marker::Model;

/// A tag and its value, in the text that they stand in.
#[derive(Drop)]
pub struct Line<'a> {
    tag: &'a str,
    value: &'a str,
}

impl<'a> Model for Line<'a> {
    ghost use Rattle.fax_job.specs.Pair.{Pair, pair};

    ghost Value = { Pair };

    ghost view = { λ line. pair line.tag.now line.value.now };
}

/// Where a line stands in the text. Its value follows its tag.
#[derive(Clone, Copy, Drop)]
struct Place {
    /// Where the tag begins.
    tag: u32,
    /// Where the value begins.
    value: u32,
    /// Where the value ends.
    end: u32,
}

/// The last end that a place can say.
const LAST_END: usize = u32::MAX as usize;

/// Lines with any tags and values. Bytes of the text where no line stands count for nothing.
pub(crate) struct LineText {
    text: String,
    places: Vec<Place>,
}

// By hand, so that a proof lets it go in one step.
impl Drop for LineText {
    fn drop(self) {
        let LineText { text: _, places: _ } = self;
    }
}

impl Model for LineText {
    ghost use Rattle.std.specs.Prelude.{List};
    ghost use Rattle.std.specs.String.{string_bytes};
    ghost use Rattle.fax_job.specs.Pair.{Pair};
    ghost use Rattle.fax_job.specs.LineText.{pairs_at, ArePlaces};

    ghost Value = { List Pair };

    ghost view = { λ lines. pairs_at (string_bytes lines.text) lines.places.items };

    ghost invariant = { λ lines. ArePlaces (string_bytes lines.text) lines.places.items };
}

impl<'a> Line<'a> {
    pub fn tag(&self) -> &'a str
        ensures { result.now ≡ self.now.tag }
    {
        self.tag
    }

    pub fn value(&self) -> &'a str
        ensures { result.now ≡ self.now.value }
    {
        self.value
    }
}

impl LineText {
    /// No lines.
    pub(crate) fn new(alloc: Global) -> LineText
        ensures { result ≡ [] }
    {
        LineText {
            text: String::new(alloc),
            places: Vec::new(alloc),
        }
    }

    pub(crate) fn len(&self) -> usize
        ensures { result ≡ length self.now }
    {
        self.places.len()
    }

    pub(crate) fn is_empty(&self) -> bool
        ensures { result ≡ (length self.now == 0) }
    {
        self.places.is_empty()
    }

    /// The line at an index.
    pub(crate) fn line(&self, index: usize) -> Line<'_>
        requires { index < length self.now }
        ensures { slice_get self.now index ≡ Some result }
    {
        line_at(self.text.as_str(), self.places[index])
    }

    /// Adds a line at the end.
    pub(crate) fn push(&mut self, tag: &str, value: &str) -> Result<(), AllocError>
        ensures ok { OnOk result (self.new ≡ self.old ++ pair tag.now value.now ∷ []) }
        ensures err { OnErr result (self.new ≡ self.old) }
        ensures utf8 { IsUtf8 value.now }
    {
        let place = write(&mut self.text, tag, value)?;
        self.places.push(place)?;
        Ok(())
    }
}

/// The line at a place.
fn line_at(text: &str, place: Place) -> Line<'_>
    requires { IsPlace text.now place }
    ensures { result ≡ pair_at text.now place }
{
    let value = place.value as usize;
    Line {
        tag: &text[place.tag as usize..value],
        value: &text[value..place.end as usize],
    }
}

/// Writes a tag and its value behind the text. Where the text would grow past what a place can say,
/// memory counts as refused.
fn write(text: &mut String, tag: &str, value: &str) -> Result<Place, AllocError>
    ensures kept { Keeps (string_bytes text.old) (string_bytes text.new) }
    ensures place { IfOk result (IsPlace (string_bytes text.new)) }
    ensures written { IfOk result (λ place. pair_at (string_bytes text.new) place ≡ pair tag.now value.now) }
{
    let start = text.len();
    text.push_str(tag)?;
    let middle = text.len();
    text.push_str(value)?;
    let end = text.len();
    if end > LAST_END {
        return Err(AllocError);
    }
    Ok(Place {
        tag: start as u32,
        value: middle as u32,
        end: end as u32,
    })
}
