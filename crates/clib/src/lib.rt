// The heap for C: functions on the caller's words and a state that the caller keeps. include/fusuma.h says how they are used.
#![tactic(auto)]

ghost use Rattle.std.specs.Prelude.{◌≡◌, ◌≢◌, MatchResult, Ok, Err};
ghost use Rattle.clib.specs.declared.errors.TurnError.{TurnError};
ghost use Rattle.clib.specs.Errors.{number_of};
ghost use Rattle.clib.specs.Kept.{effect_of};
ghost use Rattle.clib.specs.Schemes.{meaning_of};
ghost use Rattle.clib.specs.States.{Under, Turn};
ghost use Rattle.clib.specs.Turns.{Opened, Collected, Listed, BegunBy, DrawnBy, ClosedBy, GivenUpBy};

use errors::{TurnError, number_of};
use forms::{Answer, CallWords};
use heap::Aside;
use lent::{Lending, Lent};
use schemes::AnyScheme;
use std::marker::Brand;
use turns::{Kept, OutOfTurn, Step, Turned};

mod errors;
mod forms;
mod lent;
mod lists;
mod schemes;
#[cfg(test)]
mod trial;
mod turns;

/// A heap as its caller keeps it between two calls, beside the words. C lays it out as numbers, so the scheme is one.
#[repr(C)]
#[derive(Clone, Copy)]
pub struct State {
    scheme: u32,
    heap: Aside,
}

/// A new heap over the words, by the scheme of that number.
#[unsafe(no_mangle)]
pub extern "C" fn fusuma_new(words: &mut [u32], state: &mut State, scheme: u32) -> i64
    ensures { Under scheme (λ m. Opened m words.old words.new state.new.heap result × (state.new.scheme ≡ scheme)) ((state.new ≡ state.old) × (words.new ≡ words.old)) result }
{
    number_of(open_by(words, state, scheme))
}

/// Opens a heap by the scheme of that number.
fn open_by(words: &mut [u32], state: &mut State, scheme: u32) -> Result<i64, TurnError>
    ensures { Under scheme (λ m. Opened m words.old words.new state.new.heap (number_of result) × (state.new.scheme ≡ scheme)) ((state.new ≡ state.old) × (words.new ≡ words.old)) (number_of result) }
{
    let named = AnyScheme::try_from(scheme)?;
    let (_, aside, used) = open::<Brand>(words, named);
    state.scheme = scheme;
    state.heap = aside;
    Ok(used)
}

/// Opens a heap over words that are lent, and hands them back.
fn open<'a, L: Lending>(words: &'a mut [u32], scheme: AnyScheme) -> (&'a mut [u32], Aside, i64)
    requires { words.ghost_name ≡ L.name }
    ensures same_reference { result.0.ghost_name ≡ words.entry.ghost_name }
    ensures opened { Opened (meaning_of scheme) words.old result.0.now result.1 result.2 }
{
    let (kept, used) = Kept::open(Lent::<L>::new(words), scheme);
    (kept.memory.into_words(), kept.aside, used)
}

/// Gives calls to a resting heap, one after another, and writes their answers.
#[unsafe(no_mangle)]
pub extern "C" fn fusuma_give(
    words: &mut [u32],
    state: &mut State,
    calls: &[CallWords],
    answers: &mut [Answer],
) -> i64
    ensures gives { Turn (λ m ws a vs b n. Listed m calls.now answers.old answers.new ws a vs b n) words.old state.old words.new state.new result }
    ensures no_scheme { state.old.scheme ≢ 0 → state.old.scheme ≢ 1 → answers.new ≡ answers.old }
{
    number_of(give_by(words, state, calls, answers))
}

/// Gives calls by the scheme that the state names.
fn give_by(
    words: &mut [u32],
    state: &mut State,
    calls: &[CallWords],
    answers: &mut [Answer],
) -> Result<i64, TurnError>
    ensures gives { Turn (λ m ws a vs b n. Listed m calls.now answers.old answers.new ws a vs b n) words.old state.old words.new state.new (number_of result) }
    ensures no_scheme { state.old.scheme ≢ 0 → state.old.scheme ≢ 1 → answers.new ≡ answers.old }
{
    let scheme = AnyScheme::try_from(state.scheme)?;
    let (_, answer) = give::<Brand>(words, scheme, &mut state.heap, calls, answers);
    answer
}

/// Gives calls to the heap over words that are lent, and hands them back.
fn give<'a, L: Lending>(
    words: &'a mut [u32],
    scheme: AnyScheme,
    aside: &mut Aside,
    calls: &[CallWords],
    answers: &mut [Answer],
) -> (&'a mut [u32], Result<i64, TurnError>)
    requires { words.ghost_name ≡ L.name }
    ensures same_reference { result.0.ghost_name ≡ words.entry.ghost_name }
    ensures gives { Listed (meaning_of scheme) calls.now answers.old answers.new words.old aside.old result.0.now aside.new (number_of result.1) }
{
    let kept = Kept {
        memory: Lent::<L>::new(words),
        scheme,
        aside: *aside,
    };
    settle(kept.give(calls, answers), aside)
}

/// Takes a step by the scheme that the state names.
fn take_by(words: &mut [u32], state: &mut State, step: Step) -> Result<i64, TurnError>
    ensures { Turn (effect_of step) words.old state.old words.new state.new (number_of result) }
{
    let scheme = AnyScheme::try_from(state.scheme)?;
    let (_, answer) = take::<Brand>(words, scheme, &mut state.heap, step);
    answer
}

/// Takes a step of the heap over words that are lent, and hands them back.
fn take<'a, L: Lending>(
    words: &'a mut [u32],
    scheme: AnyScheme,
    aside: &mut Aside,
    step: Step,
) -> (&'a mut [u32], Result<i64, TurnError>)
    requires { words.ghost_name ≡ L.name }
    ensures same_reference { result.0.ghost_name ≡ words.entry.ghost_name }
    ensures takes { effect_of step (meaning_of scheme) words.old aside.old result.0.now aside.new (number_of result.1) }
{
    let kept = Kept {
        memory: Lent::<L>::new(words),
        scheme,
        aside: *aside,
    };
    settle(kept.take(step), aside)
}

/// Puts the heap aside after a turn, and hands the words back, with the answer or why nothing was done.
fn settle<'a, L: Lending>(
    turned: Turned<Lent<'a, L>, AnyScheme>,
    aside: &mut Aside,
) -> (&'a mut [u32], Result<i64, TurnError>)
    ensures same_reference { result.0.ghost_name ≡ L.name }
    ensures settled { MatchResult turned.entry (λ turn. (result.0.now ≡ turn.0.memory.words.now) × (aside.new ≡ turn.0.aside) × (result.1 ≡ Ok turn.1)) (λ out. (result.0.now ≡ out.0.memory.words.now) × (aside.new ≡ aside.old) × (result.1 ≡ Err TurnError.OutOfTurn)) }
{
    match turned {
        Ok((kept, answer)) => {
            *aside = kept.aside;
            (kept.memory.into_words(), Ok(answer))
        }
        Err(OutOfTurn(kept)) => (kept.memory.into_words(), Err(TurnError::OutOfTurn)),
    }
}

// A function for each step, with words and state apart: so C calls them.
/// A whole collection of a resting heap.
#[unsafe(no_mangle)]
pub extern "C" fn fusuma_collect(words: &mut [u32], state: &mut State) -> i64
    ensures { Turn Collected words.old state.old words.new state.new result }
{
    number_of(take_by(words, state, Step::Collect))
}

/// Begins a collection.
#[unsafe(no_mangle)]
pub extern "C" fn fusuma_begin(words: &mut [u32], state: &mut State) -> i64
    ensures { Turn BegunBy words.old state.old words.new state.new result }
{
    number_of(take_by(words, state, Step::Begin))
}

/// Draws a begun heap.
#[unsafe(no_mangle)]
pub extern "C" fn fusuma_draw(words: &mut [u32], state: &mut State) -> i64
    ensures { Turn DrawnBy words.old state.old words.new state.new result }
{
    number_of(take_by(words, state, Step::Draw))
}

/// Closes a drawn heap.
#[unsafe(no_mangle)]
pub extern "C" fn fusuma_close(words: &mut [u32], state: &mut State) -> i64
    ensures { Turn ClosedBy words.old state.old words.new state.new result }
{
    number_of(take_by(words, state, Step::Close))
}

/// Gives up the collection of a begun heap.
#[unsafe(no_mangle)]
pub extern "C" fn fusuma_give_up(words: &mut [u32], state: &mut State) -> i64
    ensures { Turn GivenUpBy words.old state.old words.new state.new result }
{
    number_of(take_by(words, state, Step::GiveUp))
}
