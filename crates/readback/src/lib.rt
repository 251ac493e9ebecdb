// What was stored is read back, over both memories and both schemes: the promises at pairs that hold something and admit something.
#![tactic(auto)]

ghost use Rattle.std.specs.Prelude.{◌≡◌, List, IfOk, length};
ghost use Rattle.scheme.specs.Meaning.{prefix, mask};
ghost use Rattle.service.specs.Still.{answers_of};
ghost use Rattle.readback.specs.Stored.{stored, read_back, StaysStored};
ghost use Rattle.readback.specs.Pairs.{AllReadBack};

use graph::{Call, Outcome};
use memory::Memory;
use scheme::{Mask, Prefix, Scheme};
use service::{Served, serve};
use std::alloc::{AllocError, Global};

#[cfg(test)]
mod trial;

/// The answers at each pair of a memory and a scheme.
#[derive(Drop)]
pub struct Pairs {
    pub words_under_prefix: Vec<Outcome>,
    pub words_under_mask: Vec<Outcome>,
    pub bytes_under_prefix: Vec<Outcome>,
    pub bytes_under_mask: Vec<Outcome>,
}

/// What calls to a new heap are answered, one after another; then the heap is taken apart. Over any
/// memory, under any scheme, what a call stored is read back by any later one, until a call that was
/// granted overwrites it. Over any memory of 32 words, under either scheme, the stored calls are
/// answered what was stored.
pub fn answers<M: Memory + Drop, S: Scheme + Drop>(
    memory: M,
    scheme: S,
    calls: &[Call],
    alloc: Global,
) -> Result<Vec<Outcome>, AllocError>
    ensures stays { IfOk result (λ v. StaysStored (S.Scheme.meaning scheme) (M.Memory.words memory) calls.now v.items) }
    ensures told { IfOk result (λ v. v.items ≡ answers_of (S.Scheme.meaning scheme) (M.Memory.words memory) calls.now) }
    ensures by_prefix { S.Scheme.meaning scheme ≡ prefix → length (M.Memory.words memory) ≡ 32 → calls.now ≡ stored → IfOk result (λ v. v.items ≡ read_back) }
    ensures by_mask { S.Scheme.meaning scheme ≡ mask → length (M.Memory.words memory) ≡ 32 → calls.now ≡ stored → IfOk result (λ v. v.items ≡ read_back) }
{
    let Served { answers, heap } = serve(memory, scheme, calls, alloc)?;
    let (_, _) = heap.into_parts();
    Ok(answers)
}

/// The least number, the largest and 0, raw words with the bits of references, a record that names itself, and its layout and map, stored and read
/// back behind a collection at once, one by steps and one given up.
pub fn stored_calls() -> [Call; 33]
    ensures { result ≡ stored }
{
    [
        Call::Map {
            target: 0,
            rule: 1,
            name: 31,
            parent: 31,
        },
        Call::Layout {
            target: 1,
            fields: 3,
            map: 0,
        },
        Call::Record {
            target: 2,
            layout: 1,
        },
        Call::Record {
            target: 3,
            layout: 1,
        },
        Call::Clear { handle: 2 },
        Call::Num {
            handle: 4,
            number: -536_870_912,
        },
        Call::Save {
            record: 3,
            field: 1,
            source: 4,
        },
        Call::RawSave {
            record: 3,
            field: 0,
            word: 4_294_967_295,
        },
        Call::Save {
            record: 3,
            field: 2,
            source: 3,
        },
        Call::Collect,
        Call::Load {
            target: 5,
            record: 3,
            field: 1,
        },
        Call::Value { handle: 5 },
        Call::RawLoad {
            record: 3,
            field: 0,
        },
        Call::Load {
            target: 6,
            record: 3,
            field: 2,
        },
        Call::Same {
            first: 6,
            second: 3,
        },
        Call::Num {
            handle: 4,
            number: 0,
        },
        Call::Save {
            record: 3,
            field: 1,
            source: 4,
        },
        Call::RawSave {
            record: 3,
            field: 0,
            word: 2,
        },
        Call::Stepped,
        Call::Load {
            target: 5,
            record: 3,
            field: 1,
        },
        Call::Value { handle: 5 },
        Call::RawLoad {
            record: 3,
            field: 0,
        },
        Call::Load {
            target: 6,
            record: 3,
            field: 2,
        },
        Call::Same {
            first: 6,
            second: 3,
        },
        Call::Num {
            handle: 4,
            number: 536_870_911,
        },
        Call::Save {
            record: 3,
            field: 1,
            source: 4,
        },
        Call::GivenUp,
        Call::Load {
            target: 5,
            record: 3,
            field: 1,
        },
        Call::Value { handle: 5 },
        Call::Part {
            target: 7,
            object: 3,
            part: 0,
        },
        Call::Same {
            first: 7,
            second: 1,
        },
        Call::Part {
            target: 7,
            object: 7,
            part: 1,
        },
        Call::Same {
            first: 7,
            second: 0,
        },
    ]
}

/// What the stored calls are answered at each pair of a memory and a scheme. 131 bytes are 32 words and three bytes left over.
pub fn at_each_pair(alloc: Global) -> Result<Pairs, AllocError>
    ensures { IfOk result (λ pairs. AllReadBack pairs) }
{
    let calls = stored_calls();
    Ok(Pairs {
        words_under_prefix: answers(&mut [0u32; 32][..], Prefix, &calls, alloc)?,
        words_under_mask: answers(&mut [0u32; 32][..], Mask, &calls, alloc)?,
        bytes_under_prefix: answers(&mut [0u8; 131][..], Prefix, &calls, alloc)?,
        bytes_under_mask: answers(&mut [0u8; 131][..], Mask, &calls, alloc)?,
    })
}
