//! The rules of numbers, looked up one number after the other.

ghost use Rattle.std.specs.Prelude.{◌≡◌, ◌<◌, ◌≤◌, length, get_or, IfOk, OnOk};
ghost use Rattle.fax_dest.specs.Controls.{matches, place_of};
ghost use Rattle.fax_dest.specs.Finder.{IsFinderOf};
ghost use Rattle.fax_dest.specs.declared.controls.Controls.{Controls as TheControls};
ghost use Rattle.fax_dest.specs.declared.controls.Entry.{Entry as OneEntry};

use crate::controls::{Controls, Entry};
use fax_job::Dial;
use regex::Matcher;
use std::alloc::{AllocError, Global};

/// Looks up the rules of numbers. What a search for a pattern needs is made when a number first reaches its rule, and kept
/// for all further numbers, which then take a small part of the time.
#[derive(Drop)]
pub struct Finder<'a> {
    rules: &'a [Entry],
    /// Those of the first rules.
    matchers: Vec<Matcher<'a>>,
}

impl Controls {
    /// Looks up numbers in these rules.
    pub fn finder(&self, alloc: Global) -> Finder<'_>
        ensures { IsFinderOf self.now result }
    {
        Finder {
            rules: self.rules(),
            matchers: Vec::new(alloc),
        }
    }

    /// The place of the first rule whose pattern is found anywhere in the canonical number, else the
    /// number of rules.
    ///
    /// # Errors
    ///
    /// Want of memory for a search.
    pub fn rule_of(&self, alloc: Global, dial: &Dial) -> Result<usize, AllocError>
        ensures { IfOk result (λ place. place ≡ place_of self.now dial.now) }
    {
        let mut finder = self.finder(alloc);
        let place = finder.rule_of(alloc, dial)?;
        Ok(place)
    }
}

impl<'a> Finder<'a> {
    /// The place of a number's rule, as [`Controls::rule_of`] gives it.
    ///
    /// # Errors
    ///
    /// Want of memory for a search.
    pub fn rule_of(&mut self, alloc: Global, dial: &Dial) -> Result<usize, AllocError>
        ensures { (controls : TheControls) → IsFinderOf controls self.old
            → OnOk result (IsFinderOf controls self.new) × IfOk result (λ place. place ≡ place_of controls dial.now) }
    {
        for place in 0..self.rules.len() {
            self.reach(alloc, place)?;
            if self.is_for(place, dial.text()) {
                return Ok(place);
            }
        }
        Ok(self.rules.len())
    }

    /// Makes what the search for the pattern of the rule at that place needs, if it isn't there yet.
    fn reach(&mut self, alloc: Global, place: usize) -> Result<(), AllocError>
        requires within { place < length self.old.rules.now }
        requires next { place ≤ length self.old.matchers.items }
        ensures same { self.new.rules ≡ self.old.rules }
        ensures reached { OnOk result (place < length self.new.matchers.items) }
        ensures finds { (controls : TheControls) → IsFinderOf controls self.old → OnOk result (IsFinderOf controls self.new) }
    {
        if place == self.matchers.len() {
            let matcher = self.rules[place].matcher(alloc)?;
            self.matchers.push(matcher)?;
        }
        Ok(())
    }

    /// Whether the pattern of the rule at that place is found in the number.
    fn is_for(&mut self, place: usize, number: &str) -> bool
        requires { place < length self.old.matchers.items }
        ensures same { self.new.rules ≡ self.old.rules }
        ensures reached { length self.new.matchers.items ≡ length self.old.matchers.items }
        ensures finds { (controls : TheControls) → IsFinderOf controls self.old → IsFinderOf controls self.new }
        ensures found { (controls : TheControls) (entry : OneEntry) → IsFinderOf controls self.old
            → result ≡ matches number.now (get_or controls.rules.items place entry) }
    {
        self.matchers[place].is_match(number)
    }
}
