//! Controls of destinations.

ghost use Rattle.fax_dest.specs.Pattern.{IsPlain};

use crate::fault::{FileFault, FileKind};
use crate::line::{at_blank, is_indented, is_skipped};
use crate::parameter::Parameter;
use crate::pattern::pattern;
use fax_lines::cut_line;
use fax_rule::Rule;
use regex::{Matcher, Regex};
use std::alloc::{AllocError, Global};

/// Rules of destinations, in their order, of which the first that matches a number holds.
pub struct Controls {
    rules: Vec<Entry>,
    /// What holds where none matches.
    default: Rule,
}

// By hand, so that a proof lets it go in one step.
impl Drop for Controls {
    fn drop(self) {
        let Controls {
            rules: _,
            default: _,
        } = self;
    }
}

/// A rule, and the pattern of the numbers for which it holds.
#[derive(Drop)]
pub struct Entry {
    pattern: Regex,
    rule: Rule,
    ghost plain: { ∥ IsPlain pattern ∥₁ },
}

impl Controls {
    ghost use Rattle.std.specs.Prelude.{◌≡◌, IfOk, Err};
    ghost use Rattle.std.specs.Str.{IsUtf8};
    ghost use Rattle.fax_dest.specs.Controls.{lines_of, AreControlsOf, rule_at};
    ghost use Rattle.fax_dest.specs.Fault.{GivesFile, fault_at};
    ghost use Rattle.fax_dest.specs.declared.fault.FileKind.TheVariants.{NotText};

    /// The controls that a text spells.
    ///
    /// Lines of blanks and lines whose first character past blanks is `#` are skipped. A line that
    /// begins with another character than a blank begins a rule: its first word is the pattern, in the
    /// grammar of `regex`, and what follows, if anything but a comment, is a parameter. An indented
    /// line is a parameter of the rule above. A parameter is `Name = value`, and of each name the last
    /// holds: `MaxConcurrentCalls` or `MaxConcurrentJobs` (1 to 1000), `MaxSendPages` (1 to 9999),
    /// `TimeOfDay` (as [`Hours::read`](fax_hours::Hours::read) reads it) and `RejectNotice` (at most
    /// 200 bytes without control characters; empty is none). Other names are read and not used.
    ///
    /// # Errors
    ///
    /// The first fault of the text.
    pub fn read(alloc: Global, bytes: &[u8]) -> Result<Controls, FileFault>
        ensures text { IsUtf8 bytes.now → GivesFile AreControlsOf (lines_of bytes.now) result }
        ensures not_text { ¬ (IsUtf8 bytes.now) → result ≡ Err (fault_at 0 NotText) }
    {
        match str::from_utf8(bytes) {
            Ok(text) => Controls::read_text(alloc, text),
            Err(_) => Err(FileFault {
                line: 0,
                kind: FileKind::NotText,
            }),
        }
    }

    fn read_text(alloc: Global, text: &str) -> Result<Controls, FileFault>
        ensures { GivesFile AreControlsOf (lines_of text.now) result }
    {
        let mut rules = Vec::new(alloc);
        let mut rest = text;
        let mut number: u64 = 0;
        while !rest.is_empty() {
            let (line, after) = cut_line(rest);
            number += 1;
            if let Err(kind) = Entry::take(alloc, &mut rules, line) {
                return Err(FileFault { line: number, kind });
            }
            rest = after;
        }
        Ok(Controls {
            rules,
            default: Rule::default_rule(),
        })
    }

    /// The rules, in the order of the controls.
    pub fn rules(&self) -> &[Entry]
        ensures { result.now ≡ self.now.rules.items }
    {
        self.rules.as_slice()
    }

    /// The rule at a place; what holds without one, at and past the end.
    pub fn rule_at(&self, place: usize) -> &Rule
        ensures { result.now ≡ rule_at self.now place }
    {
        match self.rules.get(place) {
            Some(entry) => &entry.rule,
            None => &self.default,
        }
    }
}

impl Entry {
    ghost use Rattle.std.specs.Prelude.{◌≡◌, IfOk};
    ghost use Rattle.regex.specs.Strings.{matcher_pattern, regex_source};
    ghost use Rattle.fax_dest.specs.Controls.{line_of, begun, behind_of, added};
    ghost use Rattle.fax_dest.specs.Line.{at_blank};
    ghost use Rattle.fax_dest.specs.ControlsStep.{rules_of, has_rule, IsTaken, IsBegun, IsRuleOf};
    ghost use Rattle.fax_dest.specs.Fault.{GivesLine};
    ghost use Rattle.fax_dest.specs.Finder.{entry_pattern};

    /// The text of the pattern.
    pub fn pattern(&self) -> &str
        ensures { result.now ≡ regex_source self.now.pattern }
    {
        self.pattern.as_str()
    }

    pub fn rule(&self) -> &Rule
        ensures { result.now ≡ self.now.rule }
    {
        &self.rule
    }

    /// Takes what a line says to the rules above it.
    #[tactic(auto, unfolding(crate::specs::Controls::line_of))]
    fn take(alloc: Global, rules: &mut Vec<Entry>, line: &str) -> Result<(), FileKind>
        ensures { GivesLine (λ item _. IsTaken item rules.old.items rules.new.items) (line_of (has_rule (rules_of rules.old.items)) line.now) result }
    {
        if is_skipped(line) {
            return Ok(());
        }
        if is_indented(line) {
            return Entry::add(alloc, rules, line);
        }
        let entry = Entry::begin(alloc, line)?;
        rules.push(entry)?;
        Ok(())
    }

    /// The rule that a line begins.
    fn begin(alloc: Global, line: &str) -> Result<Entry, FileKind>
        ensures { GivesLine IsBegun (λ compile. begun compile (at_blank line.now)) result }
    {
        let (word, rest) = at_blank(line);
        let pattern = pattern(alloc, word)?;
        let rule = Entry::behind(alloc, rest)?;
        Ok(Entry { pattern, rule })
    }

    /// What holds by the parameter behind a pattern, if there is one.
    #[tactic(auto, unfolding(crate::specs::Controls::behind_of))]
    fn behind(alloc: Global, rest: &str) -> Result<Rule, FileKind>
        ensures { GivesLine IsRuleOf (λ _. behind_of rest.now) result }
    {
        let mut rule = Rule::default_rule();
        if is_skipped(rest) {
            return Ok(rule);
        }
        Parameter::read(alloc, rest)?.set(&mut rule);
        Ok(rule)
    }

    /// Takes a parameter to the last of the rules.
    fn add(alloc: Global, rules: &mut Vec<Entry>, line: &str) -> Result<(), FileKind>
        ensures { GivesLine (λ item _. IsTaken item rules.old.items rules.new.items) (λ _. added (has_rule (rules_of rules.old.items)) line.now) result }
    {
        if rules.is_empty() {
            return Err(FileKind::NoRule);
        }
        let parameter = Parameter::read(alloc, line)?;
        let last = rules.len() - 1;
        let entry = &mut rules[last];
        parameter.set(&mut entry.rule);
        Ok(())
    }

    /// A search for the pattern.
    pub(crate) fn matcher(&self, alloc: Global) -> Result<Matcher<'_>, AllocError>
        ensures { IfOk result (λ matcher. matcher_pattern matcher ≡ entry_pattern self.now) }
    {
        self.pattern.matcher(alloc)
    }
}
