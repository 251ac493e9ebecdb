// The eighteen call words.
#![tactic(auto)]

ghost use Rattle.std.specs.Prelude.{◌≡◌, MatchOption, ◌≢◌};
ghost use Rattle.words.specs.Table.{name};

/// A word of the table of calls.
#[derive(Clone, Copy, PartialEq, Eq, Debug)]
pub enum Word {
    Num,
    Clear,
    Copy,
    Map,
    Layout,
    Record,
    Load,
    Save,
    RawLoad,
    RawSave,
    Kind,
    Value,
    Same,
    Part,
    Figure,
    Raws,
    Collect,
    Fill,
}

// By slice patterns: the bytes of a word are its case. A `TryFrom` would hold the same match.
/// The word that the bytes spell, where it is in the table. Words are written in small letters only.
pub fn word_of(bytes: &[u8]) -> Option<Word>
    ensures { MatchOption result ((w : Word) → bytes.now ≢ name w) (λ w. bytes.now ≡ name w) }
{
    match bytes {
        [b'n', b'u', b'm'] => Some(Word::Num),
        [b'c', b'l', b'e', b'a', b'r'] => Some(Word::Clear),
        [b'c', b'o', b'p', b'y'] => Some(Word::Copy),
        [b'm', b'a', b'p'] => Some(Word::Map),
        [b'l', b'a', b'y', b'o', b'u', b't'] => Some(Word::Layout),
        [b'r', b'e', b'c', b'o', b'r', b'd'] => Some(Word::Record),
        [b'l', b'o', b'a', b'd'] => Some(Word::Load),
        [b's', b'a', b'v', b'e'] => Some(Word::Save),
        [b'r', b'a', b'w', b'l', b'o', b'a', b'd'] => Some(Word::RawLoad),
        [b'r', b'a', b'w', b's', b'a', b'v', b'e'] => Some(Word::RawSave),
        [b'k', b'i', b'n', b'd'] => Some(Word::Kind),
        [b'v', b'a', b'l', b'u', b'e'] => Some(Word::Value),
        [b's', b'a', b'm', b'e'] => Some(Word::Same),
        [b'p', b'a', b'r', b't'] => Some(Word::Part),
        [b'f', b'i', b'g', b'u', b'r', b'e'] => Some(Word::Figure),
        [b'r', b'a', b'w', b's'] => Some(Word::Raws),
        [b'c', b'o', b'l', b'l', b'e', b'c', b't'] => Some(Word::Collect),
        [b'f', b'i', b'l', b'l'] => Some(Word::Fill),
        _ => None,
    }
}
