//! What the words are: plain words, and options with their values.

ghost use Rattle.std.specs.Prelude.{◌≡◌, ◌+◌, ◌<◌, ◌^◌, ◌++◌, Bool, true, false, length, map, string_bytes, IfOk, OnOk, MatchOption, None, Some};
ghost use Rattle.command_words.specs.Words.{is_end, is_option, has_value, option_name, value_in};
ghost use Rattle.command_words.specs.Table.{setting_named, taken_by, takes_value};
ghost use Rattle.command_words.specs.Parts.{part_value, Plain, Joined, lone_part, option_part, part_at, takes_next, plain_parts, parts_of};

use crate::table::Setting;
use arc_num::Memory;
use std::alloc::Global;

/// One or two words that stand together, with the number of the first.
#[derive(Debug, Drop)]
pub enum Part {
    /// A plain word.
    Plain {
        text: String,
        word: u64,
    },
    /// An option of a name that no option has.
    Unknown {
        word: u64,
    },
    /// An option with no value.
    Bare {
        setting: Setting,
        word: u64,
    },
    /// An option with the value behind its equals sign.
    Joined {
        setting: Setting,
        value: String,
        word: u64,
    },
    /// An option with the next word as its value, and the number of that word.
    Next {
        setting: Setting,
        value: String,
        word: u64,
        holder: u64,
    },
}

fn ends_options(word: &str) -> bool
    ensures { result ≡ is_end word.now }
{
    word == "--"
}

fn looks_like_option(word: &str) -> bool
    ensures { result ≡ is_option word.now }
{
    word.as_bytes().starts_with(b"--") && word.len() > 2
}

fn name_of_option(word: &str) -> &str
    ensures { result.now ≡ option_name word.now }
{
    match word.split_once('=') {
        Some((name, _)) => name,
        None => word,
    }
}

fn value_behind(word: &str) -> Option<&str>
    ensures { MatchOption result (has_value word.now ≡ false) (λ value. (has_value word.now ≡ true) × (value.now ≡ value_in word.now)) }
{
    match word.split_once('=') {
        Some((_, value)) => Some(value),
        None => None,
    }
}

fn copied(alloc: Global, text: &str) -> Result<String, Memory>
    ensures { IfOk result (λ copy. string_bytes copy ≡ text.now) }
{
    let copy = String::from_str(alloc, text)?;
    Ok(copy)
}

fn plain_part(alloc: Global, word: &str, number: u64) -> Result<Part, Memory>
    ensures { IfOk result (λ part. part_value part ≡ Plain word.now number) }
{
    let text = copied(alloc, word)?;
    Ok(Part::Plain { text, word: number })
}

fn joined_part(alloc: Global, setting: Setting, value: &str, number: u64) -> Result<Part, Memory>
    ensures { IfOk result (λ part. part_value part ≡ Joined setting value.now number) }
{
    let value = copied(alloc, value)?;
    Ok(Part::Joined {
        setting,
        value,
        word: number,
    })
}

/// An option without an equals sign, before these words.
fn lone_part(
    alloc: Global,
    setting: Setting,
    others: &[String],
    number: u64,
) -> Result<Part, Memory>
    requires { number + length others.now < 2 ^ 64 }
    ensures { IfOk result (λ part. part_value part ≡ lone_part (takes_value (taken_by setting)) setting (map string_bytes others.now) number) }
{
    if !setting.needs_value() || others.is_empty() {
        return Ok(Part::Bare {
            setting,
            word: number,
        });
    }
    let value = copied(alloc, others[0].as_str())?;
    Ok(Part::Next {
        setting,
        value,
        word: number,
        holder: number + 1,
    })
}

fn option_part(alloc: Global, word: &str, others: &[String], number: u64) -> Result<Part, Memory>
    requires { number + length others.now < 2 ^ 64 }
    ensures { IfOk result (λ part. part_value part ≡ option_part (setting_named (option_name word.now)) (has_value word.now) word.now (map string_bytes others.now) number) }
{
    let Some(setting) = Setting::named(name_of_option(word)) else {
        return Ok(Part::Unknown { word: number });
    };
    match value_behind(word) {
        Some(value) => joined_part(alloc, setting, value, number),
        None => lone_part(alloc, setting, others, number),
    }
}

/// The part that begins with a word, before these words.
fn part_at(alloc: Global, word: &str, others: &[String], number: u64) -> Result<Part, Memory>
    requires { number + length others.now < 2 ^ 64 }
    ensures { IfOk result (λ part. part_value part ≡ part_at number word.now (map string_bytes others.now)) }
{
    if looks_like_option(word) {
        option_part(alloc, word, others, number)
    } else {
        plain_part(alloc, word, number)
    }
}

/// Appends words as plain ones, the first of this number.
fn push_plains(
    alloc: Global,
    parts: &mut Vec<Part>,
    words: &[String],
    first: u64,
) -> Result<(), Memory>
    requires { first + length words.now < 2 ^ 64 }
    ensures { OnOk result (map part_value parts.new.items ≡ map part_value parts.old.items ++ plain_parts first (map string_bytes words.now)) }
{
    for (i, word) in words.iter().enumerate() {
        let part = plain_part(alloc, word.as_str(), first + i as u64)?;
        parts.push(part)?;
    }
    Ok(())
}

/// The parts of the words behind the command.
pub fn parts_of(alloc: Global, words: &[String]) -> Result<Vec<Part>, Memory>
    ensures { IfOk result (λ parts. map part_value parts.items ≡ parts_of (map string_bytes words.now)) }
{
    let mut parts = Vec::new(alloc);
    let mut belongs = false;
    for (i, word) in words.iter().enumerate() {
        let word = word.as_str();
        let others = &words[i + 1..];
        if belongs {
            belongs = false;
        } else if ends_options(word) {
            push_plains(alloc, &mut parts, others, i as u64 + 3)?;
            return Ok(parts);
        } else {
            let part = part_at(alloc, word, others, i as u64 + 2)?;
            belongs = part.takes_next();
            parts.push(part)?;
        }
    }
    Ok(parts)
}

impl Part {
    /// Whether the next word belongs to the part.
    fn takes_next(&self) -> bool
        ensures { result ≡ takes_next (part_value self.now) }
    {
        match self {
            Part::Next { .. } => true,
            Part::Plain { .. } => false,
            Part::Unknown { .. } => false,
            Part::Bare { .. } => false,
            Part::Joined { .. } => false,
        }
    }
}
