// The caller's words as a memory that goes back to the caller.
ghost use Rattle.std.specs.Prelude.{◌≡◌, ℕ, ◌+◌, ◌<◌, ◌≤◌, length, slice_index, slice_set};
ghost use Rattle.std.specs.Borrow.{GName};
ghost use Rattle.memory.specs.Ranges.{shifted, cleared};

use memory::Memory;
use std::marker::{Brand, PhantomData};

/// One lending of a caller's words, by the name that the logic has for that borrow. Nothing of it runs: the call that lends passes `Brand`,
/// and the proof of that call says which name it is.
pub trait Lending {
    ghost name: { GName };
}

// The trait wants a name here; no call goes by it, as each that passes `Brand` picks that of its
// own borrow.
impl Lending for Brand {
    ghost name = { 0 };
}

/// A memory over words that are lent. All values of this type at one `L` are over the same words: so what a heap hands back are the words that
/// it was given, though it was made for any memory and tells only what they hold.
#[derive(Drop)]
pub struct Lent<'a, L: Lending> {
    words: &'a mut [u32],
    lending: PhantomData<L>,
    ghost same: { words.ghost_name ≡ L.name },
}

impl<'a, L: Lending> Lent<'a, L> {
    pub fn new(words: &'a mut [u32]) -> Self
        requires { words.ghost_name ≡ L.name }
        ensures { result.words.now ≡ words.old }
    {
        Lent {
            words,
            lending: PhantomData,
        }
    }

    /// The words, handed back.
    pub fn into_words(self) -> &'a mut [u32]
        ensures same_reference { result.ghost_name ≡ L.name }
        ensures words { result.now ≡ self.entry.words.now }
    {
        let Lent { words, lending: _ } = self;
        words
    }
}

/// As over the slice itself.
impl<L: Lending> Memory for Lent<'_, L> {
    ghost words = { λ lent. lent.words.now };

    #[inline(always)]
    fn length(&self) -> usize {
        self.words.length()
    }

    #[inline(always)]
    fn read(&self, place: usize) -> u32 {
        self.words.read(place)
    }

    #[inline(always)]
    fn write(&mut self, place: usize, word: u32) {
        self.words.write(place, word);
    }

    #[inline(always)]
    fn read_within(&self, place: usize) -> u32 {
        self.words.read_within(place)
    }

    #[inline(always)]
    fn write_within(&mut self, place: usize, word: u32) {
        self.words.write_within(place, word);
    }

    #[inline(always)]
    fn write_fresh(&mut self, place: usize, first: u32, second: u32, end: usize) {
        self.words.write_fresh(place, first, second, end);
    }

    #[inline(always)]
    fn shift(&mut self, from: usize, to: usize, size: usize) {
        self.words.shift(from, to, size);
    }

    #[inline(always)]
    fn shift_within(&mut self, from: usize, to: usize, size: usize) {
        self.words.shift_within(from, to, size);
    }

    #[inline(always)]
    fn clear(&mut self, from: usize, end: usize) {
        self.words.clear(from, end);
    }
}
