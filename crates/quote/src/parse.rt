// A table as text: one to four hexadecimal digits, with or without 0x before them.
ghost use Rattle.std.specs.Prelude.{◌≡◌, ◌<◌, ◌≤◌, true, length, IfSome};
ghost use Rattle.quote.specs.Hex.{digit_of, number_of, prefixed, table_of};

use std::error::Error;
use std::fmt;
use tables::Table;

/// Why a text is no table.
#[derive(Clone, Copy, Debug)]
pub enum ParseFault {
    /// It has no digit.
    NoDigits,
    /// It has more than four digits.
    TooLong,
    /// It has something else than hexadecimal digits.
    NotHex,
}

impl fmt::Display for ParseFault {
    fn fmt<W: fmt::Write>(&self, f: &mut fmt::Formatter<W>) -> fmt::Result {
        f.write_str(match *self {
            ParseFault::NoDigits => "no table, since there is no digit",
            ParseFault::TooLong => "no table, since there are more than four digits",
            ParseFault::NotHex => "no table, since not all of it is hexadecimal digits",
        })
    }
}

impl Error for ParseFault {}

// What a hexadecimal digit is worth, in either case.
fn digit_value(b: u8) -> Option<u32>
    ensures value { result ≡ digit_of b }
    ensures low { IfSome result (λ d. d < 16) }
{
    char::from(b).to_digit(16)
}

// The number that one to four digits write.
#[tactic(auto, using(crate::proofs::Digits::fits))]
fn parse_digits(digits: &[u8]) -> Result<u16, ParseFault>
    ensures { result ≡ number_of digits.now }
{
    if digits.is_empty() {
        return Err(ParseFault::NoDigits);
    }
    if digits.len() > 4 {
        return Err(ParseFault::TooLong);
    }
    // No `try_fold`: in a closure the sum has no bound, so it has to wrap, and the search left the contract open.
    // No `from_str_radix`: it takes a leading +, which is no digit.
    let mut value = 0;
    for b in digits {
        let digit = digit_value(*b).ok_or(ParseFault::NotHex)?;
        value = 16 * value + digit as u16;
    }
    Ok(value)
}

/// The table that a text writes.
pub fn parse_table(text: &[u8]) -> Result<Table, ParseFault>
    ensures { result ≡ table_of text.now }
{
    match text {
        [b'0', b'x' | b'X', digits @ ..] => parse_digits(digits),
        _ => parse_digits(text),
    }
}
