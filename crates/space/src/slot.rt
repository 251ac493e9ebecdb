// Which words of an object hold values, and so may refer to another object.
ghost use Rattle.std.specs.Prelude.{◌≡◌, ℕ, ◌/◌, ◌%◌, ◌<◌, ◌≤◌, ◌==◌, ◌&&◌, false, IfSome, length, min, nat_lt, slice_index};
ghost use Rattle.scheme.specs.Meaning.{Meaning};
ghost use Rattle.graph.specs.Places.{refers, value_at};
ghost use Rattle.space.specs.Pass.{rule_at};
ghost use Rattle.space.specs.Slots.{values_of, Popped, Reads};
ghost use Rattle.space.specs.Weave.{view};

use crate::{Space, WORDS};
use codec::header::is_record;
use codec::value::{place_of, refers};
use memory::Memory;
use scheme::Scheme;

/// Which words of an object hold values: bit i says it of word i. No object has 64 words.
#[derive(Clone, Copy, PartialEq, Eq, Debug)]
pub struct Slots {
    values: u64,
}

impl Slots {
    // Of a record all but its header and its raw fields.
    fn of_record<S: Scheme>(scheme: &S, rule: u32) -> Slots
        ensures { (i : ℕ) → i < 64 → values_of result i ≡ value_at (S.Scheme.meaning scheme.now) 0 rule i }
    {
        let others = u64::from(scheme.raw_fields(rule)) * 4 + 1;
        Slots { values: !others }
    }

    // All at once, which is a few instructions: handle by handle it would be hundreds, most of them for handles that are empty.
    /// The handles that refer to an object, by their number.
    pub fn of_handles(handles: &[u32; 32]) -> Slots
        ensures few { (h : ℕ) → h < 32 → values_of result h ≡ refers (slice_index handles.now h) }
        ensures none { (h : ℕ) → 32 ≤ h → values_of result h ≡ false }
    {
        let mut values = 0u32;
        for h in 0..32u32 {
            if refers(handles[h as usize]) {
                values |= 1 << h;
            }
        }
        Slots {
            values: u64::from(values),
        }
    }

    // By the size modulo 64, so that there is nothing to test.
    /// Those of an object of so many words.
    pub fn below(self, size: u32) -> Slots
        ensures { (i : ℕ) → i < 64 → values_of result i ≡ (values_of self i && nat_lt i (size % 64)) }
    {
        let first = 1u64.wrapping_shl(size) - 1;
        Slots {
            values: self.values & first,
        }
    }

    /// Takes out the first.
    #[inline(always)]
    pub fn pop_first(&mut self) -> Option<u32>
        ensures { Popped self.old self.new result }
    {
        if self.values == 0 {
            return None;
        }
        let first = self.values.trailing_zeros();
        self.values &= !(1u64 << first);
        Some(first)
    }
}

// Of a layout its map, of a map its name and its parent: word 2, and of a map word 3 too, whose bit 3 of the header is set. Both at once, with nothing to test.
pub(crate) fn slots_of_class(header: u32) -> Slots
    ensures { (m : Meaning) (r i : ℕ) → (header / 4 % 4 == 0) ≡ false → i < 64 → values_of result i ≡ value_at m (header / 4 % 4) r i }
{
    Slots {
        values: u64::from(header / 8 % 2) * 8 + 4,
    }
}

impl<M: Memory> Space<M> {
    // The word at a place, if that is one of those to use.
    #[inline(always)]
    fn word_within(&self, limit: u32, place: u32) -> Option<u32>
        requires { limit ≡ min (length (M.Memory.words self.now.memory)) 16384 }
        ensures { IfSome result (λ w. w ≡ slice_index (M.Memory.words self.now.memory) place) }
    {
        if place >= limit {
            return None;
        }
        Some(self.memory.read_within(place as usize))
    }

    // The rule of the record at the place, if all words on the way to it are to use.
    #[inline(always)]
    fn rule_within(&self, limit: u32, place: u32) -> Option<u32>
        requires limit { limit ≡ min (length (M.Memory.words self.now.memory)) 16384 }
        requires place { place ≤ limit }
        ensures { IfSome result (λ r. r ≡ rule_at (slice_index (M.Memory.words self.now.memory)) place) }
    {
        let layout = self.word_within(limit, place + 1)?;
        let map = self.word_within(limit, place_of(layout) + 2)?;
        self.word_within(limit, place_of(map) + 1)
    }

    // The same over any words. Only in wild ones it is called, so it is out of line.
    #[cold]
    #[inline(never)]
    fn rule_beyond(&self, place: u32) -> u32
        ensures { result ≡ rule_at (slice_index (M.Memory.words self.now.memory)) place }
    {
        let layout = self.memory.read(place as usize + 1);
        let map = self.memory.read(place_of(layout) as usize + 2);
        self.memory.read(place_of(map) as usize + 1)
    }

    /// The rule of the record at the place, through its layout and map.
    pub fn rule_of(&self, place: u32) -> u32
        ensures { place < 16384 → result ≡
            rule_at (view (M.Memory.words self.now.memory) self.now.handles) place }
    {
        if place >= WORDS {
            return 0;
        }
        let layout = self.look(place + 1);
        let map = self.look(place_of(layout) + 2);
        self.look(place_of(map) + 1)
    }

    /// The same by the memory's words alone, for whoever knows how many are to use.
    #[inline(always)]
    pub fn rule_in(&self, limit: u32, place: u32) -> u32
        requires limit { limit ≡ min (length (M.Memory.words self.now.memory)) 16384 }
        requires place { place ≤ limit }
        ensures { result ≡ rule_at (slice_index (M.Memory.words self.now.memory)) place }
    {
        match self.rule_within(limit, place) {
            Some(rule) => rule,
            None => self.rule_beyond(place),
        }
    }

    // Which words of the record at the place hold values.
    #[inline(always)]
    pub(crate) fn slots_of_record<S: Scheme>(&self, scheme: &S, limit: u32, place: u32) -> Slots
        requires limit { limit ≡ min (length (M.Memory.words self.now.memory)) 16384 }
        requires place { place ≤ limit }
        ensures { (i : ℕ) → i < 64 → values_of result i ≡ value_at (S.Scheme.meaning scheme.now) 0 (rule_at (slice_index (M.Memory.words self.now.memory)) place) i }
    {
        Slots::of_record(scheme, self.rule_in(limit, place))
    }

    /// Which words of the object at the place hold values; it has that header. Bits that are no kind's are read as a map's.
    #[inline(always)]
    pub fn slots_of<S: Scheme>(&self, scheme: &S, limit: u32, place: u32, header: u32) -> Slots
        requires limit { limit ≡ min (length (M.Memory.words self.now.memory)) 16384 }
        requires place { place ≤ limit }
        ensures { Reads (S.Scheme.meaning scheme.now) (M.Memory.words self.now.memory) place header result }
    {
        if is_record(header) {
            self.slots_of_record(scheme, limit, place)
        } else {
            slots_of_class(header)
        }
    }
}
