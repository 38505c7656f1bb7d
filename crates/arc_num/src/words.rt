//! The tokens of a text, one after the other.

ghost use Rattle.std.specs.Prelude.{◌≡◌, ◌↔◌, ℕ, ◌+◌, ◌-◌, ◌^◌, ◌<◌, ◌≤◌, true, false, length, drop, slice_range, [], ◌∷◌, IsTrue, IsNone, IfSome, IfNone};
ghost use Rattle.arc_num.specs.Words.{is_white, ends_token, IsBlank, IsWord, IsFirstRun, tokens_of, whole, TokensValue, TokensAreTheLongestRuns};

use std::marker::Model;

/// A token: its number, counted from 1, and its bytes in the text, from `start` up to `end`.
#[derive(Clone, Copy, Debug, PartialEq, Eq)]
pub struct Token {
    pub index: u64,
    pub start: usize,
    pub end: usize,
}

/// The tokens of a text, one after the other.
#[derive(Drop)]
pub struct Tokens<'a> {
    text: &'a [u8],
    at: usize,
    count: u64,
}

impl<'a> Model for Tokens<'a> {
    ghost use Rattle.std.specs.Prelude.{◌≤◌, ◌^◌, ◌<◌, length, drop};
    ghost use Rattle.arc_num.specs.Words.{TokensValue, tokens_of};

    ghost Value = { TokensValue };

    ghost view = { λ s. record { text = s.text.now; at = s.at; count = s.count; left = tokens_of (drop s.at s.text.now) } };

    ghost invariant = { λ s. (s.count ≤ s.at) × (s.at ≤ length s.text.now) × (length s.text.now < 2 ^ 63) };
}

impl<'a> Tokens<'a> {
    pub fn new(text: &'a [u8]) -> Tokens<'a>
        ensures { result ≡ whole text.now }
    {
        Tokens {
            text,
            at: 0,
            count: 0,
        }
    }

    /// How many tokens came.
    pub fn count(&self) -> u64
        ensures value { result ≡ self.now.count }
        ensures small { result < 2 ^ 63 }
    {
        self.count
    }

    pub fn next(&mut self) -> Option<Token>
        ensures none { IsNone result ↔ (self.old.left ≡ []) }
        ensures unchanged { IfNone result (self.new ≡ self.old) }
        ensures run { IfSome result (λ t. IsFirstRun self.old.text self.old.at t.start t.end) }
        ensures left { IfSome result (λ t. self.old.left ≡ slice_range self.old.text t.start t.end ∷ self.new.left) }
        ensures index { IfSome result (λ t. t.index ≡ self.old.count + 1) }
        ensures count { IfSome result (λ t. self.new.count ≡ t.index) }
        ensures at { IfSome result (λ t. self.new.at ≡ t.end) }
        ensures text { self.new.text ≡ self.old.text }
    {
        let start = white_end(self.text, self.at);
        if start == self.text.len() {
            return None;
        }
        let end = word_end(self.text, start);
        self.at = end;
        self.count += 1;
        Some(Token {
            index: self.count,
            start,
            end,
        })
    }
}

/// The tokens of a text are its longest runs of bytes that are not white space.
pub fn tokens_are_the_longest_runs()
    ensures { TokensAreTheLongestRuns }
{}

fn is_white(byte: u8) -> bool
    ensures { result ≡ is_white byte }
{
    byte == b' ' || byte == b'\t' || byte == b'\r' || byte == b'\n'
}

#[tactic(auto, using(crate::proofs::RunLemmas::white_runs))]
// The first place from `from` on that has no white space, or the text's end.
fn white_end(text: &[u8], from: usize) -> usize
    requires { from ≤ length text.now }
    ensures after { from ≤ result }
    ensures within { result ≤ length text.now }
    ensures white { IsBlank (slice_range text.now from result) }
    ensures ends { result < length text.now → ends_token (drop result text.now) ≡ false }
    ensures tokens { tokens_of (drop from text.now) ≡ tokens_of (drop result text.now) }
{
    let mut at = from;
    while at < text.len() && is_white(text[at]) {
        at += 1;
    }
    at
}

// The end of the word that begins at `start`.
fn word_end(text: &[u8], start: usize) -> usize
    requires within { start < length text.now }
    requires word { ends_token (drop start text.now) ≡ false }
    ensures within { result ≤ length text.now }
    ensures word { IsWord (slice_range text.now start result) }
    ensures ends { ends_token (drop result text.now) ≡ true }
    ensures tokens { tokens_of (drop start text.now) ≡ slice_range text.now start result ∷ tokens_of (drop result text.now) }
{
    let mut at = start + 1;
    while at < text.len() && !is_white(text[at]) {
        at += 1;
    }
    at
}
