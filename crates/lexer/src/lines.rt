// Lines of the input.
ghost use Rattle.std.specs.Prelude.{◌≡◌, ℕ, ◌<◌, ◌≤◌, List, [], ◌∷◌, ◌++◌, length, MatchOption};
ghost use Rattle.std.specs.Iterator.{YieldsFirstRef, item_count};
ghost use Rattle.lexer.specs.Pieces.{Lacks, lines};

/// The bytes before the first `mark` and those after it, where there is one.
pub fn split_once<'a>(bytes: &'a [u8], mark: u8) -> Option<(&'a [u8], &'a [u8])>
    ensures { MatchOption result (Lacks mark bytes.now) (λ p. (bytes.now ≡ p.0.now ++ mark ∷ p.1.now) × Lacks mark p.0.now) }
{
    let at = bytes.iter().position(|b| *b == mark)?;
    Some((&bytes[..at], &bytes[at + 1..]))
}

/// The first line of what is left of the input, and the rest. The last line may lack its newline.
pub fn next_line<'a>(rest: &'a [u8]) -> Option<(&'a [u8], &'a [u8])>
    ensures { MatchOption result (lines rest.now ≡ []) (λ p. (lines rest.now ≡ p.0.now ∷ lines p.1.now) × (length p.1.now < length rest.now)) }
{
    if rest.is_empty() {
        return None;
    }
    Some(split_once(rest, b'\n').unwrap_or((rest, b"")))
}

/// The lines of a text, one after another.
#[derive(Drop)]
pub struct Lines<'a> {
    pub rest: &'a [u8],
}

impl<'a> Lines<'a> {
    pub fn over(text: &'a [u8]) -> Lines<'a>
        ensures { result.rest.now ≡ text.now }
    {
        Lines { rest: text }
    }
}

impl<'a> Iterator for Lines<'a> {
    type Item = &'a [u8];

    ghost next_gives = { YieldsFirstRef (λ s. lines s.rest.now) };

    ghost remaining = { item_count (λ s. lines s.rest.now) };

    fn next(&mut self) -> Option<&'a [u8]> {
        let (line, rest) = next_line(self.rest)?;
        self.rest = rest;
        Some(line)
    }
}
