// A list of calls served over words as it is, over bytes with collections put in between, which no other call can tell, and in two parts.
ghost use Rattle.std.specs.Prelude.{◌≡◌, ◌*◌, true, length, IfOk, replicate};
ghost use Rattle.scheme.specs.Meaning.{prefix};
ghost use Rattle.service.specs.Still.{answers_of};
ghost use Rattle.graph.specs.Runs.{is_collection, others, to_others};

use graph::{Call, Outcome};
use scheme::Prefix;
use service::{Served, serve, serve_both};
use std::alloc::{AllocError, AllocFailed, Global};

/// What the calls that are no collections were answered.
#[derive(Drop)]
pub struct Twice {
    pub over_words: Vec<Outcome>,
    pub over_bytes: Vec<Outcome>,
}

fn collects(call: Call) -> bool
    ensures { result ≡ is_collection call }
{
    matches!(call, Call::Collect | Call::Stepped | Call::GivenUp)
}

/// A collection at once, by steps, or given up.
fn collection(turn: usize) -> Call
    ensures { is_collection result ≡ true }
{
    match turn % 3 {
        0 => Call::GivenUp,
        1 => Call::Collect,
        _ => Call::Stepped,
    }
}

/// The calls with a collection behind each, of the three kinds in turn.
fn with_collections(calls: &[Call], alloc: Global) -> Result<Vec<Call>, AllocError>
    ensures same { IfOk result (λ all. others all.items ≡ others calls.now) }
    ensures many { IfOk result (λ all. length all.items ≡ 2 * length calls.now) }
{
    let mut all = Vec::new(alloc);
    for call in calls {
        all.push(*call)?;
        all.push(collection(all.len()))?;
    }
    Ok(all)
}

/// The answers to the calls that are no collections.
fn told_to_others(
    calls: &[Call],
    answers: &[Outcome],
    alloc: Global,
) -> Result<Vec<Outcome>, AllocError>
    ensures { IfOk result (λ told. told.items ≡ to_others calls.now answers.now) }
{
    let mut told = Vec::new(alloc);
    for (call, answer) in calls.iter().zip(answers) {
        if !collects(*call) {
            told.push(*answer)?;
        }
    }
    Ok(told)
}

/// Serves the calls over words as they are, and over bytes with collections put in between: all of them are answered the same.
pub fn serve_twice(calls: &[Call], alloc: Global) -> Result<Twice, AllocError>
    ensures told { IfOk result (λ twice. twice.over_words.items
        ≡ to_others calls.now (answers_of prefix (replicate 48 9) calls.now)) }
    ensures same { IfOk result (λ twice. twice.over_words.items ≡ twice.over_bytes.items) }
{
    let mut words = [9u32; 48];
    let mut bytes = [9u8; 195];
    let packed = with_collections(calls, alloc)?;
    let (plain, often_packed) = serve_both(
        &mut words[..],
        Prefix,
        calls,
        &mut bytes[..],
        Prefix,
        packed.as_slice(),
        alloc,
    )?;
    let Served { answers, heap } = plain;
    let (_, _) = heap.into_parts();
    let Served {
        answers: other_answers,
        heap,
    } = often_packed;
    let (_, _) = heap.into_parts();
    Ok(Twice {
        over_words: told_to_others(calls, answers.as_slice(), alloc)?,
        over_bytes: told_to_others(packed.as_slice(), other_answers.as_slice(), alloc)?,
    })
}

/// Serves the calls over words in two parts, with the heap halted in between: they are answered as one list.
pub fn serve_halted(calls: &[Call], alloc: Global) -> Result<Vec<Outcome>, AllocError>
    ensures { IfOk result (λ told. told.items ≡ answers_of prefix (replicate 48 9) calls.now) }
{
    let mut words = [9u32; 48];
    let (morning, evening) = calls.split_at(calls.len() / 2);
    let halted = serve(&mut words[..], Prefix, morning, alloc)?;
    match halted.go_on(evening) {
        Ok(Served { answers, heap }) => {
            let (_, _) = heap.into_parts();
            Ok(answers)
        }
        Err(
            AllocFailed {
                value: Served { answers: _, heap },
            },
        ) => {
            let (_, _) = heap.into_parts();
            Err(AllocError)
        }
    }
}
