// The name line: at which place of a line each name's value stands.
ghost use Rattle.std.specs.Prelude.{◌≡◌, MatchResult};
ghost use Rattle.lexer.specs.Tokens.{said, held};
ghost use Rattle.faults.specs.declared.TextFault.TheVariants.{NoNames};
ghost use Rattle.load.specs.Names.{Named, is_word, place, places, columns_in};

use faults::TextFault;
use lexer::tokens::{Token, Tokens, tokens_of};

/// The place of each name, from 0.
// Fields and no array: the laws of the name line say each column by its name.
#[derive(Clone, Copy, PartialEq, Eq, Debug)]
pub struct Columns {
    pub call: usize,
    pub a: usize,
    pub b: usize,
    pub c: usize,
    pub d: usize,
}

fn is_word(token: Token<'_>, name: &[u8]) -> bool
    ensures { result ≡ is_word name.now (said token.entry) }
{
    token == Token::Word(name)
}

// The first place that holds the name.
fn place_of(tokens: Tokens<'_>, name: &[u8]) -> Result<usize, TextFault>
    ensures { result ≡ place (held tokens.entry) name.now }
{
    tokens
        .values
        .iter()
        .position(|token| is_word(*token, name))
        .ok_or(TextFault::NoNames)
}

fn places_of(tokens: Tokens<'_>) -> Result<Columns, TextFault>
    ensures { result ≡ places (held tokens.entry) }
{
    let call = place_of(tokens, b"call")?;
    let a = place_of(tokens, b"a")?;
    let b = place_of(tokens, b"b")?;
    let c = place_of(tokens, b"c")?;
    let d = place_of(tokens, b"d")?;
    Ok(Columns { call, a, b, c, d })
}

/// The columns, where each of the five names stands once on the line and nothing else does. No line is longer than 80 bytes.
#[tactic(auto, using(crate::proofs::Titles::columns_ok, crate::proofs::Titles::columns_not, crate::proofs::Titles::told_by))]
pub fn columns_of(line: &[u8]) -> Result<Columns, TextFault>
    ensures value { result ≡ columns_in line.now }
    ensures named { MatchResult result (λ c. Named c line.now) (λ f. (f ≡ NoNames) × ((c : Columns) → Named c line.now → ⊥)) }
{
    let tokens = tokens_of(line).map_err(|_| TextFault::NoNames)?;
    places_of(tokens)
}
