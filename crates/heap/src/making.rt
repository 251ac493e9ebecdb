// The calls that make objects, each next to the gap between the sides.
ghost use Rattle.std.specs.Prelude.{◌≡◌, ℕ, ◌+◌, ◌-◌, ◌*◌, ◌<◌, ◌≤◌, length, ℤ, pos};
ghost use Rattle.graph.specs.declared.Call.TheVariants.{Map, Layout, Record};
ghost use Rattle.graph.specs.Words.{put};
ghost use Rattle.space.specs.Ends.{innermost, taken, tag_by};
ghost use Rattle.heap.specs.Views.{view, Meets, Packs, Rooms, outcome_of, nothing};

use crate::Heap;
use crate::checks::{check_fields, check_handle};
use codec::header::{Shape, header_of};
use graph::{Kind, Refusal};
use memory::Memory;
use scheme::Scheme;
use space::{Classes, Records, Side};

/// How many words a map takes, and a layout.
const MAP_WORDS: u32 = 5;

const LAYOUT_WORDS: u32 = 4;

impl<M: Memory, S: Scheme> Heap<M, S> {
    /// Takes the garbage's words back for a new object, and tells the live words.
    fn reclaim(&mut self) -> u32
        ensures packs { Packs (S.Scheme.meaning self.old.scheme) (view M.Memory.words self.old) (view M.Memory.words self.new) result }
        ensures scheme { self.new.scheme ≡ self.old.scheme }
    {
        self.pack()
    }

    /// Makes room between the two sides for so many words.
    fn make_room(&mut self, need: u32) -> Result<(), Refusal>
        ensures rooms { Rooms (S.Scheme.meaning self.old.scheme) need (view M.Memory.words self.old) (view M.Memory.words self.new) result }
        ensures scheme { self.new.scheme ≡ self.old.scheme }
    {
        if self.bounds.low as usize + need as usize <= self.bounds.high as usize {
            return Ok(());
        }
        let live = self.reclaim();
        if live as usize + need as usize > self.bounds.limit as usize {
            return Err(Refusal::Full);
        }
        Ok(())
    }

    /// Writes words one after another.
    fn put(&mut self, place: u32, words: &[u32])
        requires { length words.now ≤ 34 }
        ensures memory { M.Memory.words self.new.space.memory ≡ put (M.Memory.words self.old.space.memory) place words.now }
        ensures handles { self.new.space.handles ≡ self.old.space.handles }
        ensures bounds { self.new.bounds ≡ self.old.bounds }
        ensures scheme { self.new.scheme ≡ self.old.scheme }
    {
        // By index: a memory has no slice to copy to, and an open range of places beside the words would be no plainer.
        for (i, word) in words.iter().enumerate() {
            self.space.memory.write(place as usize + i, *word);
        }
    }

    /// Puts an object of these words next to the gap, on its side, and gives the reference to it.
    fn put_innermost<T: Side>(&mut self, words: &[u32]) -> u32
        requires { length words.now ≤ 34 }
        ensures memory { M.Memory.words self.new.space.memory ≡ put (M.Memory.words self.old.space.memory) (innermost T.Side.upward self.old.bounds (length words.now)) words.now }
        ensures handles { self.new.space.handles ≡ self.old.space.handles }
        ensures bounds { self.new.bounds ≡ taken T.Side.upward self.old.bounds (length words.now) }
        ensures scheme { self.new.scheme ≡ self.old.scheme }
        ensures reference { innermost T.Side.upward self.old.bounds (length words.now) < 16384 → result ≡ innermost T.Side.upward self.old.bounds (length words.now) * 4 + tag_by T.Side.upward }
    {
        let place = T::take(&mut self.bounds, words.len() as u32);
        self.put(place, words);
        T::reference(place)
    }

    /// Makes a map, whose name and parent are the values of two handles; the target refers to it.
    pub fn map(&mut self, target: u32, rule: u32, name: u32, parent: u32) -> Result<(), Refusal>
        ensures { Meets M.Memory.words S.Scheme.meaning (Map target rule name parent) self.old self.new (outcome_of nothing result) }
    {
        check_handle(target, 1)?;
        self.check_rule(rule, 2)?;
        check_handle(name, 3)?;
        check_handle(parent, 4)?;
        self.check_parent(self.space.handles[parent as usize], 4)?;
        self.make_room(MAP_WORDS)?;
        let words = [
            header_of(Shape::Map, MAP_WORDS),
            rule,
            self.space.handles[name as usize],
            self.space.handles[parent as usize],
            MAP_WORDS,
        ];
        let word = self.put_innermost::<Classes>(&words);
        self.space.handles[target as usize] = word;
        Ok(())
    }

    /// Makes a layout under the map that a handle holds, for records of so many fields; the target refers to it.
    pub fn layout(&mut self, target: u32, fields: u32, map: u32) -> Result<(), Refusal>
        ensures { Meets M.Memory.words S.Scheme.meaning (Layout target fields map) self.old self.new (outcome_of nothing result) }
    {
        check_handle(target, 1)?;
        check_fields(fields, 2)?;
        check_handle(map, 3)?;
        self.check_kind(self.space.handles[map as usize], Kind::Map, 3)?;
        self.make_room(LAYOUT_WORDS)?;
        let words = [
            header_of(Shape::Layout, LAYOUT_WORDS),
            fields,
            self.space.handles[map as usize],
            LAYOUT_WORDS,
        ];
        let word = self.put_innermost::<Classes>(&words);
        self.space.handles[target as usize] = word;
        Ok(())
    }

    /// Makes a record of the layout that a handle holds, with nothing in it yet; the target refers to it.
    pub fn record(&mut self, target: u32, layout: u32) -> Result<(), Refusal>
        ensures { Meets M.Memory.words S.Scheme.meaning (Record target layout) self.old self.new (outcome_of nothing result) }
    {
        check_handle(target, 1)?;
        check_handle(layout, 2)?;
        let size = self.record_size(self.space.handles[layout as usize], 2)?;
        self.make_room(size)?;
        let place = Records::take(&mut self.bounds, size);
        // Free words are 0 at rest; but a heap may be taken up over any words, and a new record's fields are 0 there too.
        self.space.memory.write_fresh(
            place as usize,
            header_of(Shape::Record, size),
            self.space.handles[layout as usize],
            place as usize + size as usize,
        );
        self.space.handles[target as usize] = Records::reference(place);
        Ok(())
    }
}
