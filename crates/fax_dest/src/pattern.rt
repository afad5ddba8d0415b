//! Patterns in the grammar of `regex`.

ghost use Rattle.std.specs.Prelude.{◌≡◌, ℕ, Bool, List, IfOk};
ghost use Rattle.regex.specs.Strings.{regex_source, regex_config, IsReadFromSource};
ghost use Rattle.regex.specs.Patterns.{default_config};
ghost use Rattle.fax_dest.specs.Fault.{GivesLine};
ghost use Rattle.fax_dest.specs.Pattern.{is_found, IsGrammar};

use crate::fault::FileKind;
use regex::{Error, Regex};
use std::alloc::{AllocError, Global};

/// The pattern that a text writes.
pub(crate) fn pattern(alloc: Global, text: &str) -> Result<Regex, FileKind>
    ensures given { GivesLine (λ source regex. regex_source regex ≡ source) (λ compile. compile text.now) result }
    ensures source { IfOk result (λ regex. regex_source regex ≡ text.now) }
    // The pattern is what the grammar reads in the text, with no flags set.
    ensures config { IfOk result (λ regex. regex_config regex ≡ default_config) }
    ensures read { IfOk result IsReadFromSource }
{
    match Regex::new(alloc, text) {
        Ok(regex) => Ok(regex),
        Err(Error::Syntax(_)) => Err(FileKind::BadPattern),
        Err(Error::OutOfMemory) => Err(FileKind::NoMemory),
        Err(Error::CompiledTooBig) => Err(FileKind::BigPattern),
        Err(Error::Internal) => Err(FileKind::BigPattern),
    }
}

/// The grammar has a test, so clauses that hold by each of its tests say something.
pub(crate) fn grammar_test()
    ensures { (is_pattern : List ℕ → Bool) × IsGrammar is_pattern }
{}

/// Whether a pattern is found anywhere in a text.
#[tactic(auto, unfolding(crate::specs::Pattern::is_found))]
pub(crate) fn is_found(alloc: Global, pattern: &Regex, text: &str) -> Result<bool, AllocError>
    ensures { IfOk result (λ found. found ≡ is_found pattern.now text.now) }
{
    let mut matcher = pattern.matcher(alloc)?;
    Ok(matcher.is_match(text))
}
