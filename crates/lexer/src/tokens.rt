// The five values of a line, each a token that borrows its part of the line.
ghost use Rattle.std.specs.Prelude.{◌≡◌, ℕ, ◌<◌, ◌≤◌, List, [], ◌∷◌, ◌++◌, map, length, MatchResult, ◌≢◌, slice_index_or};
ghost use Rattle.lexer.specs.Pieces.{pieces, PassedOver, Shaped};
ghost use Rattle.lexer.specs.Tokens.{Lexeme, word, lexeme, spelt, said, left_in, left, held};
ghost use Rattle.faults.specs.declared.TextFault.TheVariants.{NoShape};

use crate::lines::split_once;
use faults::TextFault;

/// A value of a line, told by its first byte, with the bytes of the line that it was read from.
#[derive(Clone, Copy, PartialEq, Eq, Debug)]
pub enum Token<'a> {
    Word(&'a [u8]),
    /// Its digits are not looked at yet: a column may refuse them. A minus is a part of the number, and says nothing of them.
    Number { minus: bool, digits: &'a [u8] },
    Dash,
}

/// What a value is, told by its first byte and whether it has another.
pub fn token_of<'a>(value: &'a [u8]) -> Token<'a>
    ensures { said result ≡ lexeme value.now }
{
    match value {
        b"-" => Token::Dash,
        [b'-', digits @ ..] => Token::Number {
            minus: true,
            digits,
        },
        [b'0'..=b'9', ..] => Token::Number {
            minus: false,
            digits: value,
        },
        _ => Token::Word(value),
    }
}

// The value before the first space, and what is behind that space, where there is one.
#[tactic(auto, using(crate::proofs::Cuts::pieces_more, crate::proofs::Cuts::pieces_last))]
fn first_value<'a>(text: &'a [u8]) -> (&'a [u8], Option<&'a [u8]>)
    ensures { pieces text.now ≡ result.0.now ∷ left_in result.1 }
{
    match split_once(text, b' ') {
        Some((value, after)) => (value, Some(after)),
        None => (text, None),
    }
}

/// Reads a line value by value. `rest` is None once the last value is read.
#[derive(Drop)]
pub struct Lexer<'a> {
    rest: Option<&'a [u8]>,
}

impl<'a> Lexer<'a> {
    pub fn over(line: &'a [u8]) -> Lexer<'a>
        ensures { left result ≡ pieces line.now }
    {
        Lexer { rest: Some(line) }
    }

    /// The next value, which must be there and not be empty. An empty one is passed over: those behind it are left. Where none is left, none will be.
    pub fn value(&mut self) -> Result<Token<'a>, TextFault>
        ensures { MatchResult result (λ t. (left self.old ≡ spelt (said t) ∷ left self.new) × (0 < length (spelt (said t))) × (said t ≡ lexeme (spelt (said t)))) (λ f. (f ≡ NoShape) × PassedOver (left self.old) (left self.new)) }
    {
        let (value, after) = first_value(self.rest.ok_or(TextFault::NoShape)?);
        self.rest = after;
        if value.is_empty() {
            return Err(TextFault::NoShape);
        }
        Ok(token_of(value))
    }

    // Two arms: a test and an `if` would be no plainer.
    /// No value may be left.
    #[tactic(auto, using(crate::proofs::Lexemes::some_left))]
    pub fn end(self) -> Result<(), TextFault>
        ensures { MatchResult result (λ _. left self.entry ≡ []) (λ f. (f ≡ NoShape) × (left self.entry ≢ [])) }
    {
        match self.rest {
            Some(_) => Err(TextFault::NoShape),
            None => Ok(()),
        }
    }
}

/// The five values of a line, in its order.
#[derive(Clone, Copy, Debug)]
pub struct Tokens<'a> {
    pub values: [Token<'a>; 5],
}

/// The longest line, its newline not counted.
const LONGEST_LINE: usize = 80;

pub fn tokens_of<'a>(line: &'a [u8]) -> Result<Tokens<'a>, TextFault>
    ensures { MatchResult result (λ t. Shaped line.now × (held t ≡ map lexeme (pieces line.now))) (λ f. (f ≡ NoShape) × (Shaped line.now → ⊥)) }
{
    if line.len() > LONGEST_LINE {
        return Err(TextFault::NoShape);
    }
    let mut lexer = Lexer::over(line);
    // Written out: `array::try_from_fn` does not promise that each call goes on where the last one stopped.
    let values = [
        lexer.value()?,
        lexer.value()?,
        lexer.value()?,
        lexer.value()?,
        lexer.value()?,
    ];
    lexer.end()?;
    Ok(Tokens { values })
}

impl<'a> Tokens<'a> {
    /// The value at a place of the line, from 0; past the fifth, a word without a byte.
    pub fn at(self, place: usize) -> Token<'a>
        ensures { said result ≡ slice_index_or (held self.entry) place (word []) }
    {
        self.values.get(place).copied().unwrap_or(Token::Word(b""))
    }
}
