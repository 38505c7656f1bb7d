//! Why the words ask for nothing, and the line that is said of it.

ghost use Rattle.std.specs.Prelude.{◌≡◌, ◌++◌, OnOk};
ghost use Rattle.command_words.specs.Lines.{word_head, word_line, word_fault_line};

use arc_num::{Memory, push_bytes, push_number};
use thiserror::Error;

/// Why the command line asks for nothing. Words are numbered from 1; the program's name is not among them.
#[derive(Clone, Copy, Debug, PartialEq, Eq, Error)]
pub enum WordFault {
    /// There is no word.
    #[error("no command")]
    NoCommand,
    /// The first word is no command.
    #[error("word {word}: no such command")]
    NoSuchCommand { word: u64 },
    /// The command has no such option.
    #[error("word {word}: no such option")]
    NoSuchOption { word: u64 },
    /// The option stood before.
    #[error("word {word}: option repeated")]
    Repeated { word: u64 },
    /// The option takes a value, has no `=` and is the last word.
    #[error("word {word}: value missing")]
    NoValue { word: u64 },
    /// A plain word past those of the command.
    #[error("word {word}: one word too many")]
    TooManyWords { word: u64 },
    /// The value in this word may not stand there.
    #[error("word {word}: bad value")]
    BadValue { word: u64 },
    /// The name is empty, or is the second `-`.
    #[error("word {word}: bad name")]
    BadName { word: u64 },
    /// Plain words are missing.
    #[error("too few words")]
    TooFewWords,
    /// Want of memory.
    #[error("out of memory")]
    Memory,
}

impl From<Memory> for WordFault {
    ghost use Rattle.std.specs.Prelude.{◌≡◌};
    ghost use Rattle.command_words.specs.declared.faults.WordFault.TheVariants.{Memory};

    ghost from_gives = { λ _ e. e ≡ Memory };

    fn from(_e: Memory) -> WordFault {
        WordFault::Memory
    }
}

fn push_word_head(line: &mut Vec<u8>, word: u64) -> Result<(), Memory>
    ensures { OnOk result (line.new.items ≡ line.old.items ++ word_head word) }
{
    push_bytes(line, b"vpack: word ")?;
    push_number(line, u128::from(word))?;
    push_bytes(line, b": ")
}

fn push_word_line(line: &mut Vec<u8>, word: u64, said: &[u8]) -> Result<(), Memory>
    ensures { OnOk result (line.new.items ≡ line.old.items ++ word_line word said.now) }
{
    push_word_head(line, word)?;
    push_bytes(line, said)?;
    push_bytes(line, b"\n")
}

/// Appends the line that is said of a fault. After want of memory the first bytes of the line may have been appended.
pub fn push_word_fault(line: &mut Vec<u8>, fault: WordFault) -> Result<(), Memory>
    ensures { OnOk result (line.new.items ≡ line.old.items ++ word_fault_line fault) }
{
    match fault {
        WordFault::NoCommand => push_bytes(line, b"vpack: no command\n"),
        WordFault::NoSuchCommand { word } => push_word_line(line, word, b"no such command"),
        WordFault::NoSuchOption { word } => push_word_line(line, word, b"no such option"),
        WordFault::Repeated { word } => push_word_line(line, word, b"option repeated"),
        WordFault::NoValue { word } => push_word_line(line, word, b"value missing"),
        WordFault::TooManyWords { word } => push_word_line(line, word, b"one word too many"),
        WordFault::BadValue { word } => push_word_line(line, word, b"bad value"),
        WordFault::BadName { word } => push_word_line(line, word, b"bad name"),
        WordFault::TooFewWords => push_bytes(line, b"vpack: too few words\n"),
        WordFault::Memory => push_bytes(line, b"vpack: out of memory\n"),
    }
}
