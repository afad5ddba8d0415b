//! Key lines from their text.

ghost use Rattle.std.specs.Prelude.{ℕ, List, IfErr, ◌≡◌, ◌<◌, ◌++◌, ◌∷◌, ◌&&◌, [], true, false, length, codes, Ok, Err, Some, None, IfOk, IfSome, MatchResult};
ghost use Rattle.std.specs.Option.{option_map, option_copied};
ghost use Rattle.std.specs.String.{string_bytes};
ghost use Rattle.fax_value.specs.Gives.{Gives, GivesBy};
ghost use Rattle.fax_job.specs.declared.lines.LineFault.{LineFault};
ghost use Rattle.fax_lines.specs.Spells.{Spells, IsFirstFault};
ghost use Rattle.fax_job.specs.Pair.{Pair, pair, is_pair, begins_with_hash, has_tag};
ghost use Rattle.fax_lines.specs.Reading.{lines, is_skipped, at_colon, before_backslash, begun_part, is_no_memory, entry_of, taken, begin_step, go_on_step, step, read_on, IsEntry, IsOpen};
ghost use Rattle.fax_job.specs.Tag.{is_known};

use fax_job::{
    LineFault, LineKind, Lines, is_known, is_of_blanks, is_plain, is_tag, without_blanks,
};
use std::alloc::{AllocError, Global};

/// The lines that a text spells.
///
/// A line of blanks alone and a line that begins with `#` are skipped. Every other line is a tag, `:`,
/// blanks, and the value. A `status` whose line ends with `\` goes on in the next line, and holds LF in
/// that byte's place.
///
/// # Errors
///
/// The first fault of the text, and its line.
pub fn read_lines(alloc: Global, bytes: &[u8]) -> Result<Lines, LineFault>
    // What is read is the list that the text spells.
    ensures found { IfOk result (Spells bytes.now) }
    // A fault is the first of the text.
    ensures first { IfErr result (λ fault. is_no_memory fault ≡ false → IsFirstFault bytes.now fault) }
    // What is spelled is read, unless memory runs out.
    ensures only { (ps : List Pair) → Spells bytes.now ps → Gives is_no_memory result (Ok ps) }
{
    match str::from_utf8(bytes) {
        Ok(text) => read_text(alloc, text),
        Err(_) => Err(LineFault {
            line: 0,
            kind: LineKind::NotText,
        }),
    }
}

/// A text has one first fault at most, and a text that has one spells no list. So what [`read_lines`]
/// answers is fixed by the text, unless memory runs out.
pub fn one_fault_or_one_list()
    ensures one { (text : List ℕ) (f g : LineFault) → IsFirstFault text f → IsFirstFault text g → f ≡ g }
    ensures no_list { (text : List ℕ) (fault : LineFault) (ps : List Pair) → IsFirstFault text fault → Spells text ps → ⊥ }
{}

fn read_text(alloc: Global, text: &str) -> Result<Lines, LineFault>
    ensures { Gives is_no_memory result (read_on (lines text.now) 0 [] None) }
{
    let mut lines = Lines::new(alloc);
    let mut begun: Option<String> = None;
    let mut rest = text;
    let mut number: u64 = 0;
    while !rest.is_empty() {
        let (line, after) = cut_line(rest);
        number += 1;
        begun = step(alloc, &mut lines, number, begun, line)?;
        rest = after;
    }
    match begun {
        None => Ok(lines),
        Some(_) => Err(LineFault {
            line: number,
            kind: LineKind::OpenEnd,
        }),
    }
}

/// The first line, and what follows its LF.
pub fn cut_line(text: &str) -> (&str, &str)
    requires { 0 < length text.now }
    ensures lines { lines text.now ≡ result.0.now ∷ lines result.1.now }
    ensures shorter { length result.1.now < length text.now }
{
    match text.split_once('\n') {
        Some(parts) => parts,
        None => (text, ""),
    }
}

/// Takes a line, which goes on with a status where one has begun. Answers what a status has so far,
/// where it goes on.
fn step(
    alloc: Global,
    lines: &mut Lines,
    number: u64,
    begun: Option<String>,
    line: &str,
) -> Result<Option<String>, LineFault>
    requires { IfSome begun (λ value. IsOpen lines.old (string_bytes value)) }
    ensures step { GivesBy (λ begun. (lines.new, option_map string_bytes begun)) is_no_memory result (step number lines.old (option_map string_bytes begun) line.now) }
    ensures opened { IfOk result (λ begun. IfSome begun (λ value. IsOpen lines.new (string_bytes value))) }
{
    match begun {
        Some(value) => go_on(alloc, lines, number, value, line),
        None => begin(alloc, lines, number, line),
    }
}

/// Takes a line that begins an entry. Answers what a status has so far, where it goes on.
#[tactic(auto, unfolding(crate::specs::Reading::begin_step))]
fn begin(
    alloc: Global,
    lines: &mut Lines,
    number: u64,
    line: &str,
) -> Result<Option<String>, LineFault>
    ensures step { GivesBy (λ begun. (lines.new, option_map string_bytes begun)) is_no_memory result (begin_step number lines.old line.now) }
    ensures opened { IfOk result (λ begun. IfSome begun (λ value. IsOpen lines.new (string_bytes value))) }
{
    if is_skipped(line) {
        return Ok(None);
    }
    match entry(lines, line) {
        Ok((tag, value)) => Ok(take(alloc, lines, tag, value)?),
        Err(kind) => Err(LineFault { line: number, kind }),
    }
}

/// Takes a tag and its value.
fn take(
    alloc: Global,
    lines: &mut Lines,
    tag: &str,
    value: &str,
) -> Result<Option<String>, AllocError>
    requires { IsEntry lines.old (pair tag.now value.now) }
    ensures step { IfOk result (λ begun. taken lines.old (pair tag.now value.now) ≡ (lines.new, option_map string_bytes begun)) }
    ensures opened { IfOk result (λ begun. IfSome begun (λ value. IsOpen lines.new (string_bytes value))) }
{
    match begun_part(tag, value) {
        Some(part) => Ok(Some(joined(alloc, "", part, "\n")?)),
        None => {
            lines.push(tag, value)?;
            Ok(None)
        }
    }
}

/// The first part of a status that goes on.
#[tactic(auto, unfolding(crate::specs::Reading::begun_part))]
fn begun_part<'a>(tag: &str, value: &'a str) -> Option<&'a str>
    ensures { option_copied result ≡ begun_part (pair tag.now value.now) }
{
    if tag == "status" {
        before_backslash(value)
    } else {
        None
    }
}

/// Takes a line that goes on with a status.
#[tactic(auto, unfolding(crate::specs::Reading::go_on_step))]
fn go_on(
    alloc: Global,
    lines: &mut Lines,
    number: u64,
    begun: String,
    line: &str,
) -> Result<Option<String>, LineFault>
    requires { IsOpen lines.old (string_bytes begun) }
    ensures step { GivesBy (λ begun. (lines.new, option_map string_bytes begun)) is_no_memory result (go_on_step number lines.old (string_bytes begun) line.now) }
    ensures opened { IfOk result (λ begun. IfSome begun (λ value. IsOpen lines.new (string_bytes value))) }
{
    if !is_plain(line.as_bytes()) {
        return Err(LineFault {
            line: number,
            kind: LineKind::BadValue,
        });
    }
    match before_backslash(line) {
        Some(part) => Ok(Some(joined(alloc, begun.as_str(), part, "\n")?)),
        None => {
            let mut value = begun;
            value.push_str(line)?;
            lines.push("status", value.as_str())?;
            Ok(None)
        }
    }
}

/// What stands before a `\` at the end.
fn before_backslash(text: &str) -> Option<&str>
    ensures { option_copied result ≡ before_backslash text.now }
{
    text.strip_suffix('\\')
}

fn joined(alloc: Global, first: &str, second: &str, third: &str) -> Result<String, AllocError>
    ensures { IfOk result (λ text. string_bytes text ≡ first.now ++ second.now ++ third.now) }
{
    let mut text = String::from_str(alloc, first)?;
    text.push_str(second)?;
    text.push_str(third)?;
    Ok(text)
}

/// The tag and the value of a line, where the tag isn't a known one that the lines have already.
#[tactic(auto, unfolding(crate::specs::Reading::entry_of))]
fn entry<'a>(lines: &Lines, line: &'a str) -> Result<(&'a str, &'a str), LineKind>
    ensures { MatchResult result (λ parts. entry_of lines.now line.now ≡ Ok (pair parts.0.now parts.1.now)) (λ kind. entry_of lines.now line.now ≡ Err kind) }
{
    let Some((tag, rest)) = at_colon(line) else {
        return Err(LineKind::NoColon);
    };
    if !is_tag(tag.as_bytes()) {
        return Err(LineKind::BadTag);
    }
    if is_known(tag) && lines.has_tag(tag) {
        return Err(LineKind::Twice);
    }
    let value = without_blanks(rest);
    if !is_plain(value.as_bytes()) {
        return Err(LineKind::BadValue);
    }
    Ok((tag, value))
}

/// What stands before and behind the first `:`.
fn at_colon(line: &str) -> Option<(&str, &str)>
    ensures { option_map (λ parts. (parts.0.now, parts.1.now)) result ≡ at_colon line.now }
{
    line.split_once(':')
}

fn is_skipped(line: &str) -> bool
    ensures { result ≡ is_skipped line.now }
{
    begins_with_hash(line.as_bytes()) || is_of_blanks(line.as_bytes())
}

fn begins_with_hash(line: &[u8]) -> bool
    ensures { result ≡ begins_with_hash line.now }
{
    match line {
        [byte, ..] => *byte == b'#',
        [] => false,
    }
}
