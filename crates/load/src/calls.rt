// The call that a line gives.
ghost use Rattle.std.specs.Prelude.{◌≡◌, ◌≤◌};
ghost use Rattle.std.specs.Option.{ok_or};
ghost use Rattle.lexer.specs.Tokens.{said};
ghost use Rattle.faults.specs.declared.TextFault.TheVariants.{NoWord};
ghost use Rattle.load.specs.Calls.{word_said, value_in, values_in, numbers, call, parsed};

use crate::names::Columns;
use faults::{Argument, TextFault};
use graph::Call;
use lexer::tokens::{Token, tokens_of};
use numbers::{plain_of, signed_of, unused_of};
use words::{Word, word_of};

/// The values under the names a to d.
// Fields and no array: `under` reads one by its column, and the call `num` names two of them.
#[derive(Clone, Copy, Debug)]
pub struct Arguments<'a> {
    pub a: Token<'a>,
    pub b: Token<'a>,
    pub c: Token<'a>,
    pub d: Token<'a>,
}

impl<'a> Arguments<'a> {
    fn under(self, column: Argument) -> Token<'a>
        ensures { said result ≡ value_in self.entry column }
    {
        match column {
            Argument::A => self.a,
            Argument::B => self.b,
            Argument::C => self.c,
            Argument::D => self.d,
        }
    }

    // The numbers under the first N columns; the call does not use those behind.
    fn numbers<const N: usize>(self) -> Result<[u32; N], TextFault>
        requires { N ≤ 4 }
        ensures { result ≡ numbers N (values_in self.entry) }
    {
        // By place: after `get_mut`, or a zip with `iter_mut`, nothing is known of what was written.
        let mut numbers = [0; N];
        for (place, column) in Argument::ALL.iter().enumerate() {
            let token = self.under(*column);
            if place < N {
                numbers[place] = plain_of(token, *column)?;
            } else {
                unused_of(token, *column)?;
            }
        }
        Ok(numbers)
    }
}

/// The call of a word, with the values of as many columns as it has arguments, a first.
// An arm for each word: each call names its own fields.
pub fn call_of(word: Word, arguments: Arguments<'_>) -> Result<Call, TextFault>
    ensures { result ≡ call word (said arguments.entry.a) (said arguments.entry.b) (said arguments.entry.c) (said arguments.entry.d) }
{
    match word {
        Word::Num => {
            let handle = plain_of(arguments.a, Argument::A)?;
            let number = signed_of(arguments.b, Argument::B)?;
            unused_of(arguments.c, Argument::C)?;
            unused_of(arguments.d, Argument::D)?;
            Ok(Call::Num { handle, number })
        }
        Word::Clear => {
            let [handle] = arguments.numbers::<1>()?;
            Ok(Call::Clear { handle })
        }
        Word::Copy => {
            let [target, source] = arguments.numbers::<2>()?;
            Ok(Call::Copy { target, source })
        }
        Word::Map => {
            let [target, rule, name, parent] = arguments.numbers::<4>()?;
            Ok(Call::Map {
                target,
                rule,
                name,
                parent,
            })
        }
        Word::Layout => {
            let [target, fields, map] = arguments.numbers::<3>()?;
            Ok(Call::Layout {
                target,
                fields,
                map,
            })
        }
        Word::Record => {
            let [target, layout] = arguments.numbers::<2>()?;
            Ok(Call::Record { target, layout })
        }
        Word::Load => {
            let [target, record, field] = arguments.numbers::<3>()?;
            Ok(Call::Load {
                target,
                record,
                field,
            })
        }
        Word::Save => {
            let [record, field, source] = arguments.numbers::<3>()?;
            Ok(Call::Save {
                record,
                field,
                source,
            })
        }
        Word::RawLoad => {
            let [record, field] = arguments.numbers::<2>()?;
            Ok(Call::RawLoad { record, field })
        }
        Word::RawSave => {
            let [record, field, word] = arguments.numbers::<3>()?;
            Ok(Call::RawSave {
                record,
                field,
                word,
            })
        }
        Word::Kind => {
            let [handle] = arguments.numbers::<1>()?;
            Ok(Call::Kind { handle })
        }
        Word::Value => {
            let [handle] = arguments.numbers::<1>()?;
            Ok(Call::Value { handle })
        }
        Word::Same => {
            let [first, second] = arguments.numbers::<2>()?;
            Ok(Call::Same { first, second })
        }
        Word::Part => {
            let [target, object, part] = arguments.numbers::<3>()?;
            Ok(Call::Part {
                target,
                object,
                part,
            })
        }
        Word::Figure => {
            let [handle] = arguments.numbers::<1>()?;
            Ok(Call::Figure { handle })
        }
        Word::Raws => {
            let [handle] = arguments.numbers::<1>()?;
            Ok(Call::Raws { handle })
        }
        Word::Collect => {
            let [] = arguments.numbers::<0>()?;
            Ok(Call::Collect)
        }
        Word::Fill => {
            let [] = arguments.numbers::<0>()?;
            Ok(Call::Fill)
        }
    }
}

#[tactic(auto, using(words::proofs::Tells::word_some, words::proofs::Tells::word_none))]
fn called(token: Token<'_>) -> Result<Word, TextFault>
    ensures { result ≡ ok_or (word_said (said token.entry)) NoWord }
{
    match token {
        Token::Word(bytes) => word_of(bytes).ok_or(TextFault::NoWord),
        _ => Err(TextFault::NoWord),
    }
}

/// The call of a line, or its first fault: its shape comes before its word, and that before its arguments from a to d.
#[tactic(auto, using(crate::proofs::Shapes::five_ok, crate::proofs::Shapes::five_not))]
pub fn parse_line(columns: &Columns, line: &[u8]) -> Result<Call, TextFault>
    ensures { result ≡ parsed columns.now line.now }
{
    let tokens = tokens_of(line)?;
    let word = called(tokens.at(columns.call))?;
    let a = tokens.at(columns.a);
    let b = tokens.at(columns.b);
    let c = tokens.at(columns.c);
    let d = tokens.at(columns.d);
    call_of(word, Arguments { a, b, c, d })
}
