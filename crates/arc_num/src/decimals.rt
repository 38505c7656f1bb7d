//! Numbers in decimal digits.

ghost use Rattle.std.specs.Prelude.{◌≡◌, ℕ, ◌+◌, ◌<◌, ◌++◌, OnOk, OnErr, decimal};
ghost use Rattle.std.specs.List.{list_all};
ghost use Rattle.std.specs.Char.{is_ascii_digit};
ghost use Rattle.arc_num.specs.Decimals.{are_digits, number_of, signed_decimal, DecimalsReadBack};

use crate::Memory;
use itoa::Buffer;

/// Whether the text is not empty and has ASCII digits alone.
pub fn is_digits(text: &[u8]) -> bool
    ensures { result ≡ are_digits text.now }
{
    !text.is_empty() && are_all_digits(text)
}

fn are_all_digits(text: &[u8]) -> bool
    ensures { result ≡ list_all is_ascii_digit text.now }
{
    text.iter().all(|byte| byte.is_ascii_digit())
}

#[tactic(auto, using(crate::proofs::DigitLemmas::digit_steps))]
/// The value of a text of digits alone, where it fits 64 bits.
pub fn number(text: &[u8]) -> Option<u64>
    ensures { result ≡ number_of text.now }
{
    if !is_digits(text) {
        return None;
    }
    let mut value = 0u64;
    for byte in text {
        let digit = u64::from(*byte - b'0');
        if value > (u64::MAX - digit) / 10 {
            return None;
        }
        value = value * 10 + digit;
    }
    Some(value)
}

/// Appends bytes as they are.
pub fn push_bytes(out: &mut Vec<u8>, bytes: &[u8]) -> Result<(), Memory>
    ensures ok { OnOk result (out.new.items ≡ out.old.items ++ bytes.now) }
    ensures err { OnErr result (out.new.items ≡ out.old.items) }
{
    out.extend_from_slice(bytes)?;
    Ok(())
}

/// Appends the decimal text of a number.
pub fn push_number(out: &mut Vec<u8>, n: u128) -> Result<(), Memory>
    ensures ok { OnOk result (out.new.items ≡ out.old.items ++ decimal n) }
    ensures err { OnErr result (out.new.items ≡ out.old.items) }
{
    let mut buffer = Buffer::new();
    out.extend_from_slice(buffer.format(n).as_bytes())?;
    Ok(())
}

/// Appends the decimal text of a number, with `-` before a negative one.
pub fn push_signed(out: &mut Vec<u8>, n: i64) -> Result<(), Memory>
    ensures ok { OnOk result (out.new.items ≡ out.old.items ++ signed_decimal n) }
    ensures err { OnErr result (out.new.items ≡ out.old.items) }
{
    let mut buffer = Buffer::new();
    let text = buffer.format(n);
    out.extend_from_slice(text.as_bytes())?;
    Ok(())
}

/// A law: the decimal text of a number is of digits alone, and its value is the number.
pub fn decimals_read_back()
    ensures { DecimalsReadBack }
{}
