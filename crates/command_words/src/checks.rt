//! The first faulty word.

ghost use Rattle.std.specs.Prelude.{◌≡◌, ℕ, List, [], length, map, string_bytes, MatchOption, None, Some};
ghost use Rattle.std.specs.List.{list_any};
ghost use Rattle.command_words.specs.Words.{is_dash};
ghost use Rattle.command_words.specs.Table.{taken_by, takes_value};
ghost use Rattle.command_words.specs.Parts.{part_value};
ghost use Rattle.command_words.specs.Faults.{same, gives, is_given, plain_text, plains_in, value_for, is_number, is_value, name_fault, plain_fault, option_fault, value_fault, lack_fault, part_fault, first_fault, few_fault, fault_in};

use crate::faults::WordFault;
use crate::parts::Part;
use crate::table::{PlainWord, Setting, Shape, Takes};
use arc_num::number;

impl Setting {
    fn is(self, other: Setting) -> bool
        ensures { result ≡ same self other }
    {
        match (self, other) {
            (Setting::Mvp, Setting::Mvp) => true,
            (Setting::Joint, Setting::Joint) => true,
            (Setting::Nodes, Setting::Nodes) => true,
            (Setting::Cert, Setting::Cert) => true,
            (Setting::Workers, Setting::Workers) => true,
            _ => false,
        }
    }
}

impl Part {
    fn gives(&self, setting: Setting) -> bool
        ensures { result ≡ gives setting (part_value self.now) }
    {
        match self {
            Part::Plain { .. } => false,
            Part::Unknown { .. } => false,
            Part::Bare { setting: other, .. } => setting.is(*other),
            Part::Joined { setting: other, .. } => setting.is(*other),
            Part::Next { setting: other, .. } => setting.is(*other),
        }
    }

    /// The plain word that the part is.
    pub fn plain(&self) -> Option<&str>
        ensures { MatchOption result (plain_text (part_value self.now) ≡ None) (λ text. plain_text (part_value self.now) ≡ Some text.now) }
    {
        match self {
            Part::Plain { text, .. } => Some(text.as_str()),
            Part::Unknown { .. } => None,
            Part::Bare { .. } => None,
            Part::Joined { .. } => None,
            Part::Next { .. } => None,
        }
    }

    /// The value that the part gives to an option.
    pub fn value_for(&self, setting: Setting) -> Option<&str>
        ensures { MatchOption result (value_for setting (part_value self.now) ≡ None) (λ text. value_for setting (part_value self.now) ≡ Some text.now) }
    {
        match self {
            Part::Plain { .. } => None,
            Part::Unknown { .. } => None,
            Part::Bare { .. } => None,
            Part::Joined {
                setting: other,
                value,
                ..
            } => {
                if setting.is(*other) {
                    Some(value.as_str())
                } else {
                    None
                }
            }
            Part::Next {
                setting: other,
                value,
                ..
            } => {
                if setting.is(*other) {
                    Some(value.as_str())
                } else {
                    None
                }
            }
        }
    }
}

/// Whether an option is among the parts.
pub fn is_given(parts: &[Part], setting: Setting) -> bool
    ensures { result ≡ is_given setting (map part_value parts.now) }
{
    for part in parts {
        if part.gives(setting) {
            return true;
        }
    }
    false
}

fn count_plains(parts: &[Part]) -> usize
    ensures { result ≡ length (plains_in (map part_value parts.now)) }
{
    let mut count = 0;
    for part in parts {
        if part.plain().is_some() {
            count += 1;
        }
    }
    count
}

fn stands_for_stream(name: &str) -> bool
    ensures { result ≡ is_dash name.now }
{
    name == "-"
}

fn has_stream(parts: &[Part]) -> bool
    ensures { result ≡ list_any is_dash (plains_in (map part_value parts.now)) }
{
    for part in parts {
        if let Some(text) = part.plain() {
            if stands_for_stream(text) {
                return true;
            }
        }
    }
    false
}

fn is_number(least: u64, most: u64, text: &str) -> bool
    ensures { result ≡ is_number least most text.now }
{
    if text.len() > 20 {
        return false;
    }
    match number(text.as_bytes()) {
        Some(value) => least <= value && value <= most,
        None => false,
    }
}

fn is_value(takes: Takes, text: &str) -> bool
    ensures { result ≡ is_value takes text.now }
{
    match takes {
        Takes::Nothing => false,
        Takes::Number { least, most } => is_number(least, most, text),
        Takes::Name => !text.is_empty() && !stands_for_stream(text),
    }
}

fn name_fault(before: &[Part], name: &str, word: u64) -> Option<WordFault>
    ensures { result ≡ name_fault (plains_in (map part_value before.now)) name.now word }
{
    if name.is_empty() || stands_for_stream(name) && has_stream(before) {
        Some(WordFault::BadName { word })
    } else {
        None
    }
}

fn plain_fault(
    stands_for: Option<PlainWord>,
    before: &[Part],
    text: &str,
    word: u64,
) -> Option<WordFault>
    ensures { result ≡ plain_fault stands_for (plains_in (map part_value before.now)) text.now word }
{
    match stands_for {
        None => Some(WordFault::TooManyWords { word }),
        Some(PlainWord::Number { least, most }) => {
            if is_number(least, most, text) {
                None
            } else {
                Some(WordFault::BadValue { word })
            }
        }
        Some(PlainWord::Instance) => name_fault(before, text, word),
        Some(PlainWord::Certificate) => name_fault(before, text, word),
        Some(PlainWord::Solution) => name_fault(before, text, word),
    }
}

fn option_fault(shape: Shape, before: &[Part], setting: Setting, word: u64) -> Option<WordFault>
    ensures { result ≡ option_fault shape (map part_value before.now) setting word }
{
    if !shape.allows(setting) {
        Some(WordFault::NoSuchOption { word })
    } else if is_given(before, setting) {
        Some(WordFault::Repeated { word })
    } else {
        None
    }
}

fn value_fault(setting: Setting, value: &str, word: u64) -> Option<WordFault>
    ensures { result ≡ value_fault setting value.now word }
{
    if is_value(setting.takes(), value) {
        None
    } else {
        Some(WordFault::BadValue { word })
    }
}

fn lack_fault(setting: Setting, word: u64) -> Option<WordFault>
    ensures { result ≡ lack_fault setting word }
{
    if setting.needs_value() {
        Some(WordFault::NoValue { word })
    } else {
        None
    }
}

/// The fault of a part, behind these parts.
fn part_fault(shape: Shape, before: &[Part], part: &Part) -> Option<WordFault>
    ensures { result ≡ part_fault shape (map part_value before.now) (part_value part.now) }
{
    match part {
        Part::Plain { text, word } => plain_fault(
            shape.plain_at(count_plains(before)),
            before,
            text.as_str(),
            *word,
        ),
        Part::Unknown { word } => Some(WordFault::NoSuchOption { word: *word }),
        Part::Bare { setting, word } => {
            option_fault(shape, before, *setting, *word).or(lack_fault(*setting, *word))
        }
        Part::Joined {
            setting,
            value,
            word,
        } => option_fault(shape, before, *setting, *word).or(value_fault(
            *setting,
            value.as_str(),
            *word,
        )),
        Part::Next {
            setting,
            value,
            word,
            holder,
        } => option_fault(shape, before, *setting, *word).or(value_fault(
            *setting,
            value.as_str(),
            *holder,
        )),
    }
}

fn first_fault(shape: Shape, parts: &[Part]) -> Option<WordFault>
    ensures { result ≡ first_fault shape [] (map part_value parts.now) }
{
    for (i, part) in parts.iter().enumerate() {
        if let Some(fault) = part_fault(shape, &parts[..i], part) {
            return Some(fault);
        }
    }
    None
}

fn few_fault(shape: Shape, parts: &[Part]) -> Option<WordFault>
    ensures { result ≡ few_fault shape (map part_value parts.now) }
{
    if count_plains(parts) < shape.plain_count() {
        Some(WordFault::TooFewWords)
    } else {
        None
    }
}

/// The fault of the whole: that of the first faulty word, or else that plain words are missing.
pub fn fault_in(shape: Shape, parts: &[Part]) -> Option<WordFault>
    ensures { result ≡ fault_in shape (map part_value parts.now) }
{
    first_fault(shape, parts).or(few_fault(shape, parts))
}
