//! Lines that say what went wrong.
ghost use Rattle.std.specs.Prelude.{◌≡◌, ◌∷◌, ◌++◌, []};
ghost use Rattle.fax_ending.specs.FaultLine.{spelled, spelled_place};

/// What stands behind the first words of a line.
#[derive(Clone, Copy)]
pub enum Place<'a> {
    Nowhere,
    /// The name of a file.
    File(&'a str),
    /// The number of a line, or the status of a reply.
    Number(u64),
}

/// A line that says what went wrong, in the parts in which it is written, so that it takes no memory.
#[derive(Clone, Copy)]
pub struct FaultLine<'a> {
    /// What went wrong, with a blank behind it where more follows.
    pub what: &'a str,
    pub place: Place<'a>,
    /// What stands in front of the word, if there is one.
    pub between: &'a str,
    /// The word of a fault, or nothing.
    pub word: &'a str,
}

impl<'a> FaultLine<'a> {
    /// A line of no more than what went wrong, and where.
    pub fn of(what: &'a str, place: Place<'a>) -> FaultLine<'a>
        ensures { spelled result ≡ what.now ++ spelled_place place.entry ++ 10 ∷ [] }
    {
        FaultLine {
            what,
            place,
            between: "",
            word: "",
        }
    }
}
