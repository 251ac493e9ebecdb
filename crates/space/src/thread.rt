// Threading: the slots that refer to an object form a list that begins at its header's place and
// ends with the header.
ghost use Rattle.std.specs.Prelude.{◌≡◌, length, min, IfSome};
ghost use Rattle.space.specs.Met.{Among, Met, Unthreaded};
ghost use Rattle.space.specs.Slots.{address, There};
ghost use Rattle.space.specs.Weave.{view, Rewrites, Stored, Threaded};
ghost use Rattle.space.specs.Keeping.{KeptIn};

use crate::{ADDRESSES, Object, Side, Space, WORDS};
use codec::link::{address_of, ends_list, link_to};
use codec::value::{place_of, to_object};
use memory::Memory;

// Where a reference stands that is threaded: in a word of the memory, or in a handle.
#[derive(Clone, Copy)]
pub(crate) enum Slot {
    Word(u32),
    Handle(u32),
}

impl Slot {
    // Its address.
    fn address(self) -> u32
        requires { There 16384 self }
        ensures { result ≡ address self }
    {
        match self {
            Slot::Word(place) => place,
            Slot::Handle(h) => WORDS + h,
        }
    }
}

impl<M: Memory> Space<M> {
    // Sets the word of a slot.
    #[inline(always)]
    pub(crate) fn fill(&mut self, slot: Slot, word: u32)
        requires { There (min (length (M.Memory.words self.old.memory)) 16384) slot }
        ensures { Stored (M.Memory.words self.old.memory) self.old.handles (address slot) word
            (M.Memory.words self.new.memory) self.new.handles }
    {
        match slot {
            Slot::Word(place) => self.memory.write_within(place as usize, word),
            Slot::Handle(h) => self.handles[h as usize] = word,
        }
    }

    // Threads the reference in the slot, which is that word. So many words are there to use.
    #[inline(always)]
    pub(crate) fn thread(&mut self, limit: u32, slot: Slot, word: u32)
        requires limit { limit ≡ min (length (M.Memory.words self.old.memory)) 16384 }
        requires slot { There limit slot }
        ensures woven { word ≡ view (M.Memory.words self.old.memory) self.old.handles (address slot)
            → Threaded (M.Memory.words self.old.memory) self.old.handles (address slot)
            (M.Memory.words self.new.memory) self.new.handles }
        ensures kept { KeptIn M.Memory.words self.old self.new }
    {
        let place = place_of(word);
        if place >= limit {
            // In wild words: there is no header, as where `look` finds none. Not left as it is, for
            // then this test and the one for a reference are compiled into one, which costs more.
            return self.fill(slot, 0);
        }
        let header = self.memory.read_within(place as usize);
        self.fill(slot, header);
        self.fill(Slot::Word(place), link_to(slot.address()));
    }

    // The word at an address: 0 past the last, and past the words to use.
    #[inline(always)]
    fn look_within(&self, limit: u32, address: u32) -> u32
        requires { limit ≡ min (length (M.Memory.words self.now.memory)) 16384 }
        ensures { result ≡ view (M.Memory.words self.now.memory) self.now.handles address }
    {
        if address < limit {
            self.memory.read_within(address as usize)
        } else if WORDS <= address && address < ADDRESSES {
            self.handles[(address - WORDS) as usize]
        } else {
            0
        }
    }

    // Puts the word at an address, and gives what stood there: 0 past the last, and past the words to use.
    #[inline(always)]
    fn replace(&mut self, limit: u32, address: u32, word: u32) -> u32
        requires { limit ≡ min (length (M.Memory.words self.old.memory)) 16384 }
        ensures word { result ≡ view (M.Memory.words self.old.memory) self.old.handles address }
        ensures stored { Stored (M.Memory.words self.old.memory) self.old.handles address word
            (M.Memory.words self.new.memory) self.new.handles }
    {
        if address < limit {
            let old = self.memory.read_within(address as usize);
            self.memory.write_within(address as usize, word);
            old
        } else if WORDS <= address && address < ADDRESSES {
            let h = (address - WORDS) as usize;
            let old = self.handles[h];
            self.handles[h] = word;
            old
        } else {
            0
        }
    }

    // Follows the list that begins with the link, so many turns, and puts the reference into each
    // of its slots.
    #[inline(always)]
    fn rewrite(&mut self, limit: u32, first: u32, turns: u32, reference: u32)
        requires { limit ≡ min (length (M.Memory.words self.old.memory)) 16384 }
        ensures rewrites { Rewrites (M.Memory.words self.old.memory) self.old.handles first turns
            reference (M.Memory.words self.new.memory) self.new.handles }
        ensures kept { KeptIn M.Memory.words self.old self.new }
    {
        let mut link = first;
        for turn in 0..turns {
            link = self.replace(limit, address_of(link), reference);
        }
    }

    // Takes the list off the object that the cursor has come to: its header stands at its place
    // again, and each slot of the list refers to where it is to lie, `to` being the new cursor.
    // Gives the object; none if its size would not lead on, as in wild words.
    #[inline(always)]
    pub(crate) fn unthread<T: Side>(&mut self, limit: u32, cursor: u32, to: u32) -> Option<Object>
        requires limit { limit ≡ min (length (M.Memory.words self.old.memory)) 16384 }
        requires cursor { Among T.Side.upward limit cursor }
        ensures met { Met T.Side.upward (M.Memory.words self.old.memory) self.old.handles cursor
            result }
        ensures unthreaded { IfSome result (Unthreaded T.Side.upward
            (M.Memory.words self.old.memory) self.old.handles to
            (M.Memory.words self.new.memory) self.new.handles) }
        ensures kept { KeptIn M.Memory.words self.old self.new }
    {
        let place = T::header_place(&self.memory, cursor)?;
        let first = self.memory.read_within(place as usize);
        let mut word = first;
        // Turns are counted, since in wild words a list need not end.
        let mut turns = 0;
        let header = 'list: loop {
            if ends_list(word) || turns == ADDRESSES {
                break word;
            }
            turns += 1;
            word = self.look_within(limit, address_of(word));
        };
        let size = T::size(cursor, place, header);
        if size == 0 {
            return None;
        }
        if turns > 0 {
            // Not made before now: its tag is that of the kind which the header tells.
            let reference = to_object(T::place(to, size), header);
            self.rewrite(limit, first, turns, reference);
            self.fill(Slot::Word(place), header);
        }
        Some(Object {
            place,
            size,
            header,
        })
    }
}
