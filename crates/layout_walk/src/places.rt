ghost use Rattle.std.specs.Prelude.{◌≡◌, ℕ, ◌+◌, ◌<◌, ◌≤◌, IfOk, MatchResult};
ghost use Rattle.packing_laws.specs.Places.{front, value_in, limit_in, next_number, next_limit, caps_word, end_at, Gives};

use arc_num::{MAX_VALUE, Tokens, is_digits, number};
use packing_laws::ReadFault;
use std::marker::Model;

/// A walk over the tokens of a text. After a fault it is over.
#[derive(Drop)]
pub struct Places<'a> {
    text: &'a [u8],
    tokens: Tokens<'a>,
}

impl<'a> Model for Places<'a> {
    ghost use Rattle.std.specs.Prelude.{◌≡◌};
    ghost use Rattle.packing_laws.specs.Places.{Place};

    ghost Value = { Place };

    ghost view = { λ s. record { count = s.tokens.count; left = s.tokens.left } };

    ghost invariant = { λ s. s.tokens.text ≡ s.text.now };
}

impl<'a> Places<'a> {
    pub fn new(text: &'a [u8]) -> Places<'a>
        ensures { result ≡ front text.now }
    {
        Places {
            text,
            tokens: Tokens::new(text),
        }
    }

    #[tactic(auto, unfolding(packing_laws::specs::Places::next_number))]
    /// The number at the next place, from `low` to `high`.
    pub fn number(&mut self, low: u32, high: u32) -> Result<u32, ReadFault>
        ensures read { Gives result self.new (next_number low high self.old) }
        ensures range { IfOk result (λ x. (low ≤ x) × (x ≤ high)) }
    {
        let index = self.tokens.count() + 1;
        match self.tokens.next() {
            None => Err(ReadFault::Short { index }),
            Some(token) => value_of(&self.text[token.start..token.end], index, low, high),
        }
    }

    #[tactic(auto, unfolding(packing_laws::specs::Places::next_limit))]
    /// The limit at the next place, where `-1` stands for none.
    pub fn limit(&mut self) -> Result<Option<u32>, ReadFault>
        ensures { Gives result self.new (next_limit self.old) }
    {
        let index = self.tokens.count() + 1;
        match self.tokens.next() {
            None => Err(ReadFault::Short { index }),
            Some(token) => limit_of(&self.text[token.start..token.end], index),
        }
    }

    #[tactic(auto, unfolding(packing_laws::specs::Places::caps_word))]
    /// Whether the word `caps` follows, or else the end of the text.
    pub fn caps_word(&mut self) -> Result<bool, ReadFault>
        ensures { Gives result self.new (caps_word self.old) }
    {
        match self.tokens.next() {
            None => Ok(false),
            Some(token) if &self.text[token.start..token.end] == b"caps".as_slice() => Ok(true),
            Some(token) => Err(ReadFault::Extra { index: token.index }),
        }
    }

    /// How many tokens came.
    pub fn count(&self) -> u64
        ensures { result ≡ self.now.count }
    {
        self.tokens.count()
    }

    #[tactic(auto, unfolding(packing_laws::specs::Places::end_at))]
    /// The end of the text.
    pub fn end(&mut self) -> Result<(), ReadFault>
        ensures { result ≡ end_at self.old }
    {
        match self.tokens.next() {
            None => Ok(()),
            Some(token) => Err(ReadFault::Extra { index: token.index }),
        }
    }
}

fn value_of(token: &[u8], index: u64, low: u32, high: u32) -> Result<u32, ReadFault>
    ensures value { result ≡ value_in low high index token.now }
    ensures range { IfOk result (λ x. (low ≤ x) × (x ≤ high)) }
{
    if !is_digits(token) {
        return Err(ReadFault::NotNumber { index });
    }
    match number(token) {
        Some(value) if u64::from(low) <= value && value <= u64::from(high) => Ok(value as u32),
        _ => Err(ReadFault::Range { index }),
    }
}

fn limit_of(token: &[u8], index: u64) -> Result<Option<u32>, ReadFault>
    ensures { result ≡ limit_in index token.now }
{
    if token == b"-1".as_slice() {
        return Ok(None);
    }
    match value_of(token, index, 0, MAX_VALUE) {
        Ok(value) => Ok(Some(value)),
        Err(fault) => Err(fault),
    }
}
