//! What the words behind a command say.

ghost use Rattle.std.specs.Prelude.{◌≡◌, map, string_bytes, IfOk, MatchResult, MatchOption, Ok, None, Some, option_and_then};
ghost use Rattle.arc_num.specs.Decimals.{number_of};
ghost use Rattle.command_words.specs.Faults.{said_by, FaultIs, HasValues, HasPlains, is_given, plain_of, value_of_setting, number_of_setting};

use crate::checks::{fault_in, is_given};
use crate::faults::WordFault;
use crate::parts::{Part, parts_of};
use crate::table::{Setting, Shape};
use arc_num::number;
use std::alloc::Global;
use std::marker::Model;

/// The parts of a command line that has no faulty word.
#[derive(Debug, Drop)]
pub struct Found {
    parts: Vec<Part>,
}

impl Model for Found {
    ghost use Rattle.std.specs.Prelude.{List, map};
    ghost use Rattle.command_words.specs.Parts.{PartValue, part_value};

    ghost Value = { List PartValue };

    ghost view = { λ s. map part_value s.parts.items };
}

impl Found {
    /// Reads the words behind a command of this shape.
    pub fn read(alloc: Global, shape: Shape, words: &[String]) -> Result<Self, WordFault>
        ensures said { MatchResult result (λ found. said_by shape (map string_bytes words.now) ≡ Ok found) (λ fault. FaultIs (said_by shape (map string_bytes words.now)) fault) }
        ensures values { IfOk result HasValues }
        ensures plains { IfOk result (HasPlains shape) }
    {
        let parts = parts_of(alloc, words)?;
        match fault_in(shape, parts.as_slice()) {
            Some(fault) => Err(fault),
            None => Ok(Found { parts }),
        }
    }

    /// Whether an option is given.
    pub fn has(&self, setting: Setting) -> bool
        ensures { result ≡ is_given setting self.now }
    {
        is_given(self.parts.as_slice(), setting)
    }

    /// The plain word at this place, from 0.
    pub fn plain(&self, place: usize) -> Option<&str>
        ensures { MatchOption result (plain_of place self.now ≡ None) (λ text. plain_of place self.now ≡ Some text.now) }
    {
        let mut left = place;
        for part in self.parts.as_slice() {
            if let Some(text) = part.plain() {
                if left == 0 {
                    return Some(text);
                }
                left -= 1;
            }
        }
        None
    }

    /// The number that the plain word at this place, from 0, is.
    pub fn plain_number(&self, place: usize) -> Option<u64>
        ensures { result ≡ option_and_then number_of (plain_of place self.now) }
    {
        match self.plain(place) {
            Some(text) => number(text.as_bytes()),
            None => None,
        }
    }

    /// The value of an option.
    pub fn value(&self, setting: Setting) -> Option<&str>
        ensures { MatchOption result (value_of_setting setting self.now ≡ None) (λ text. value_of_setting setting self.now ≡ Some text.now) }
    {
        for part in self.parts.as_slice() {
            if let Some(value) = part.value_for(setting) {
                return Some(value);
            }
        }
        None
    }

    /// The number that an option gives.
    pub fn number(&self, setting: Setting) -> Option<u64>
        ensures { result ≡ number_of_setting setting self.now }
    {
        match self.value(setting) {
            Some(value) => number(value.as_bytes()),
            None => None,
        }
    }
}
