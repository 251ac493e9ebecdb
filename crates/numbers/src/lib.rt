// The numbers that a column takes.
#![tactic(auto)]

ghost use Rattle.std.specs.Prelude.{◌≡◌, ℕ, ◌+◌, ◌-◌, ◌*◌, ◌^◌, ◌<◌, ◌≤◌};
ghost use Rattle.std.specs.Option.{ok_or};
ghost use Rattle.numbers.specs.Numbers.{natural, plain, signed, unused};
ghost use Rattle.lexer.specs.Tokens.{said, number};
ghost use Rattle.faults.specs.declared.TextFault.TheVariants.{NoValue};

use faults::{Argument, TextFault};
use lexer::tokens::Token;

/// The number that one to ten digits write.
pub fn natural_of(digits: &[u8]) -> Option<u64>
    ensures { result ≡ natural digits.now }
{
    if digits.is_empty() || digits.len() > 10 {
        return None;
    }
    let mut n: u64 = 0;
    for &b in digits {
        match b {
            b'0'..=b'9' => n = n * 10 + u64::from(b - b'0'),
            _ => return None,
        }
    }
    Some(n)
}

// The number of 32 bits that digits write behind a minus, or without one.
fn whole_of(minus: bool, digits: &[u8]) -> Option<i32>
    ensures { result ≡ signed (number minus digits.now) }
{
    let n = i64::try_from(natural_of(digits)?).ok()?;
    i32::try_from(if minus { -n } else { n }).ok()
}

/// A number of 32 bits, without a minus.
pub fn plain_of(token: Token<'_>, column: Argument) -> Result<u32, TextFault>
    ensures { result ≡ ok_or (plain (said token.entry)) (NoValue column) }
{
    let number = match token {
        Token::Number {
            minus: false,
            digits,
        } => natural_of(digits),
        _ => None,
    };
    number
        .and_then(|n| u32::try_from(n).ok())
        .ok_or(TextFault::NoValue(column))
}

/// A number of 32 bits that may carry a minus; a minus before zeros is allowed too.
pub fn signed_of(token: Token<'_>, column: Argument) -> Result<i32, TextFault>
    ensures { result ≡ ok_or (signed (said token.entry)) (NoValue column) }
{
    let number = match token {
        Token::Number { minus, digits } => whole_of(minus, digits),
        _ => None,
    };
    number.ok_or(TextFault::NoValue(column))
}

// Two arms: a comparison and an `if` would be no plainer.
/// An argument that the call does not use is a dash.
pub fn unused_of(token: Token<'_>, column: Argument) -> Result<(), TextFault>
    ensures { result ≡ ok_or (unused (said token.entry)) (NoValue column) }
{
    match token {
        Token::Dash => Ok(()),
        _ => Err(TextFault::NoValue(column)),
    }
}
