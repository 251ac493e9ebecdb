// Heaps whose words are written out from the rules for words at rest, and what the rules leave of them after a collection.
#![tactic(auto)]

#[cfg(test)]
mod tests {
    use marking::{begin, give_up};
    use memory::Memory;
    use scheme::Prefix;
    use space::{ADDRESSES, Bounds, Slots, Space, WORDS};

    // Writes the words from the place on.
    fn write<M: Memory>(space: &mut Space<M>, from: u32, words: &[u32]) {
        for (place, word) in (from..).zip(words) {
            space.store(place, *word);
        }
    }

    fn has<M: Memory>(space: &Space<M>, words: &[u32; 62]) -> bool {
        (0..62)
            .zip(words)
            .all(|(place, word)| space.look(place) == *word)
    }

    // The reference with the tag to a place.
    fn reference(place: u32, tag: u32) -> u32 {
        place.wrapping_mul(4).wrapping_add(tag)
    }

    // Whether begin tells the live words, giving up brings the words back, and the three steps leave the ends.
    fn collects<M: Memory>(
        space: &mut Space<M>,
        bounds: Bounds,
        live: u32,
        ends: (u32, u32),
    ) -> bool {
        let first = space.look(0);
        let told = begin(space, &Prefix, bounds);
        give_up(space, bounds);
        let back = space.look(0) == first;
        let again = begin(space, &Prefix, bounds);
        space.draw(&Prefix, bounds);
        let closed = space.close(bounds);
        back && told == live && again == live && closed == ends_at(ends.0, ends.1, bounds.limit)
    }

    // A heap of so many words whose records end and whose classes begin at these places.
    fn ends_at(low: u32, high: u32, limit: u32) -> Bounds {
        Bounds { low, high, limit }
    }

    // Garbage at both ends and in the middle of both sides. The record at 5 refers to itself and to the map of its own class, which has it as its name; its raw field
    // is the word of a reference to the garbage at 10.
    fn mixed<M: Memory>(space: &mut Space<M>) -> bool {
        let before = [
            81, 187, 22, 22, 42, 81, 187, 42, 22, 203, 81, 187, 0, 2, 0, 81, 187, 7, 4294967269,
            151, 81, 187, 1, 62, 22, 0, 0, 0, 0, 0, 0, 0, 89, 0, 62, 151, 5, 89, 0, 21, 203, 5, 69,
            2, 203, 4, 69, 3, 203, 4, 89, 1, 22, 0, 5, 89, 3, 4294967289, 203, 5, 99, 98,
        ];
        let after = [
            81, 207, 42, 2, 223, 81, 207, 7, 4294967269, 187, 0, 0, 0, 0, 0, 0, 0, 0, 0, 0, 0, 0,
            0, 0, 0, 0, 0, 0, 0, 0, 0, 0, 0, 0, 0, 0, 0, 0, 0, 0, 0, 0, 0, 0, 0, 0, 89, 0, 21, 223,
            5, 69, 3, 223, 4, 89, 1, 2, 0, 5, 99, 98,
        ];
        write(space, 0, &before);
        space.store(WORDS, 62);
        space.store(WORDS + 3, 151);
        space.store(WORDS + 7, 13);
        space.store(WORDS + 31, 62);
        let bounds = ends_at(25, 32, 60);
        let told = begin(space, &Prefix, bounds);
        give_up(space, bounds);
        let back = has(space, &before);
        let collected = collects(space, bounds, 24, (10, 46));
        told == 24
            && back
            && collected
            && has(space, &after)
            && space.look(WORDS) == 22
            && space.look(WORDS + 3) == 187
            && space.look(WORDS + 7) == 13
            && space.look(WORDS + 31) == 22
    }

    // By number, here and below: the number is the place, or the place is computed from it.
    fn clear<M: Memory>(space: &mut Space<M>, limit: u32) {
        for place in 0..limit {
            space.store(place, 0);
        }
    }

    fn write_layout<M: Memory>(space: &mut Space<M>, place: u32, fields: u32, map: u32) {
        write(space, place, &[69, fields, reference(map, 3), 4]);
    }

    // A record of so many fields, its layout at the place.
    fn head<M: Memory>(space: &mut Space<M>, place: u32, fields: u32, layout: u32) {
        let header = fields.wrapping_add(2).wrapping_mul(16).wrapping_add(1);
        write(space, place, &[header, reference(layout, 3)]);
    }

    // Records of one field, each naming the next.
    fn chain<M: Memory>(space: &mut Space<M>, base: u32, limit: u32) {
        clear(space, limit);
        let map = limit.wrapping_sub(5);
        write(space, map, &[89, 0, 0, 0, 5]);
        write_layout(space, limit.wrapping_sub(9), 1, map);
        for i in 0..70u32 {
            let place = base.wrapping_add(i * 3);
            head(space, place, 1, limit.wrapping_sub(9));
            let next = if i == 69 {
                0
            } else {
                reference(place.wrapping_add(3), 2)
            };
            space.store(place.wrapping_add(2), next);
        }
        space.store(WORDS, reference(base, 2));
    }

    // Each handle but the last names an empty record; the last names a record of 31 empty ones and, in its last field, of one with 32 records of one field, which
    // each name another empty one. Their 32 places come on top of 62.
    fn fan<M: Memory>(space: &mut Space<M>, base: u32, limit: u32) {
        clear(space, limit);
        let map = limit.wrapping_sub(5);
        let none = limit.wrapping_sub(9);
        let one = limit.wrapping_sub(13);
        let many = limit.wrapping_sub(17);
        write(space, map, &[89, 0, 0, 0, 5]);
        write_layout(space, none, 0, map);
        write_layout(space, one, 1, map);
        write_layout(space, many, 32, map);
        let second = base.wrapping_add(34);
        head(space, base, 32, many);
        head(space, second, 32, many);
        for i in 0..32u32 {
            let held = base.wrapping_add(68 + i * 2);
            let leaf = base.wrapping_add(130 + i * 2);
            let stem = base.wrapping_add(192 + i * 3);
            let last = base.wrapping_add(288 + i * 2);
            let named = if i == 31 { second } else { leaf };
            let handled = if i == 31 { base } else { held };
            space.store(base.wrapping_add(2 + i), reference(named, 2));
            space.store(second.wrapping_add(2 + i), reference(stem, 2));
            space.store(WORDS + i, reference(handled, 2));
            if i < 31 {
                head(space, held, 0, none);
                head(space, leaf, 0, none);
            }
            head(space, stem, 1, one);
            space.store(stem.wrapping_add(2), reference(last, 2));
            head(space, last, 0, none);
        }
    }

    // All live but the record at 0: the words of the same heap built without it.
    fn chained<M: Memory, N: Memory>(space: &mut Space<M>, other: &mut Space<N>) -> bool {
        chain(space, 3, 222);
        head(space, 0, 1, 213);
        space.store(2, reference(3, 2));
        chain(other, 0, 222);
        collects(space, ends_at(213, 213, 222), 219, (210, 213)) && alike(space, other, 222)
    }

    fn fanned<M: Memory, N: Memory>(space: &mut Space<M>, other: &mut Space<N>) -> bool {
        fan(space, 2, 371);
        head(space, 0, 0, 362);
        fan(other, 0, 371);
        collects(space, ends_at(354, 354, 371), 369, (352, 354)) && alike(space, other, 371)
    }

    // No words at all, and a full heap of live objects: the words stay.
    fn bounds<M: Memory>(space: &mut Space<M>) -> bool {
        space.store(0, 5);
        space.store(1, 6);
        let none = collects(space, ends_at(0, 0, 0), 0, (0, 0))
            && space.look(0) == 5
            && space.look(1) == 6;
        head(space, 0, 0, 2);
        write_layout(space, 2, 0, 6);
        write(space, 6, &[89, 0, 2, 0, 5]);
        space.store(WORDS + 16, reference(2, 3));
        none && collects(space, ends_at(2, 2, 11), 11, (2, 2))
            && space.look(0) == 33
            && space.look(1) == 11
            && space.look(2) == 69
            && space.look(4) == 27
            && space.look(8) == 2
            && space.look(WORDS + 16) == 11
    }

    // Whether two spaces have the same words and handles.
    fn alike<M: Memory, N: Memory>(first: &Space<M>, second: &Space<N>, limit: u32) -> bool {
        (0..limit)
            .chain(WORDS..ADDRESSES)
            .all(|place| first.look(place) == second.look(place))
    }

    // So many nodes, each a record of 32 fields, which name in turn a record and a class, 31 in all, and then the next node: the pending places run out at the
    // third node already, and then again and again. Each of the 31 names an object of the other side, to which nothing else leads. A later node lies before the
    // others, where a round over the records has passed by the time that it is dropped. Each node has a record and a map behind it that nothing names. The headers
    // of all else have this mark.
    fn tower<M: Memory>(space: &mut Space<M>, nodes: u32, limit: u32, mark: u32) {
        clear(space, limit);
        let map = limit.wrapping_sub(5);
        let none = limit.wrapping_sub(9);
        let one = limit.wrapping_sub(13);
        let many = limit.wrapping_sub(17);
        write(space, map, &[89, 0, 0, 0, 5]);
        write_layout(space, none, 0, map);
        write_layout(space, one, 1, map);
        write_layout(space, many, 32, map);
        for place in [map, none, one, many] {
            add(space, place, mark);
        }
        for node in 0..nodes {
            let base = nodes.wrapping_sub(node).wrapping_sub(1).wrapping_mul(114);
            let classes = many.wrapping_sub(node.wrapping_add(1).wrapping_mul(160));
            head(space, base, 32, many);
            add(space, base, mark);
            for i in 0..16u32 {
                let stem = base.wrapping_add(34 + i * 3);
                let held = classes.wrapping_add(i * 5);
                head(space, stem, 1, one);
                space.store(stem.wrapping_add(2), reference(held, 3));
                write(space, held, &[89, 0, 0, 0, 5]);
                add(space, stem, mark);
                add(space, held, mark);
                space.store(base.wrapping_add(2 + i * 2), reference(stem, 2));
            }
            for i in 0..15u32 {
                let named = classes.wrapping_add(80 + i * 5);
                let leaf = base.wrapping_add(82 + i * 2);
                write(space, named, &[89, 0, reference(leaf, 2), 0, 5]);
                head(space, leaf, 0, none);
                add(space, named, mark);
                add(space, leaf, mark);
                space.store(base.wrapping_add(3 + i * 2), reference(named, 3));
            }
            if node.wrapping_add(1) < nodes {
                space.store(base.wrapping_add(33), reference(base.wrapping_sub(114), 2));
            }
            head(space, base.wrapping_add(112), 0, none);
            write(
                space,
                classes.wrapping_add(155),
                &[89, 0, reference(base, 2), 0, 5],
            );
        }
        space.store(
            WORDS + 9,
            reference(nodes.wrapping_sub(1).wrapping_mul(114), 2),
        );
    }

    // Adds to the word at an address.
    fn add<M: Memory>(space: &mut Space<M>, address: u32, more: u32) {
        space.store(address, space.look(address).wrapping_add(more));
    }

    // Ten nodes: every object that is named gets its mark and no other, and loses it when the collection is given up.
    fn towers<M: Memory, N: Memory>(space: &mut Space<M>, other: &mut Space<N>) -> bool {
        tower(space, 10, 2800, 0);
        tower(other, 10, 2800, 2);
        let bounds = ends_at(1140, 1183, 2800);
        let live = begin(space, &Prefix, bounds);
        let marked = alike(space, other, 2800);
        give_up(space, bounds);
        tower(other, 10, 2800, 0);
        live == 2687 && marked && alike(space, other, 2800)
    }

    fn towers_over<M: Memory + Drop>(memory: M) -> bool {
        let mut words = [0u32; 2800];
        let mut space = Space::new(memory);
        let mut other = Space::new(&mut words[..]);
        let passed = towers(&mut space, &mut other);
        let Space {
            memory: _,
            handles: _,
        } = space;
        let Space {
            memory: _,
            handles: _,
        } = other;
        passed
    }

    #[test]
    fn places_run_out_over_words(rt: HostRuntime) {
        let mut words = [0u32; 2800];
        assert!(rt; towers_over(&mut words[..]));
    }

    #[test]
    fn places_run_out_over_bytes(rt: HostRuntime) {
        let mut bytes = [0u8; 11_200];
        assert!(rt; towers_over(&mut bytes[..]));
    }

    // The next three, and whether there is a fourth.
    fn three(slots: Slots) -> ([Option<u32>; 3], bool) {
        let mut left = slots;
        let first = left.pop_first();
        let second = left.pop_first();
        let third = left.pop_first();
        ([first, second, third], left.pop_first().is_some())
    }

    fn slots_at(space: &Space<&mut [u32]>, place: u32) -> Slots {
        let limit = space.limit();
        space.slots_of(&Prefix, limit, place.min(limit), space.look(place))
    }

    // A record of 32 fields, the first 30 of them raw; its layout at 34, its map at 38.
    #[test]
    fn slots(rt: HostRuntime) {
        let mut words = [0u32; 43];
        let mut space = Space::new(&mut words[..]);
        head(&mut space, 0, 32, 34);
        write_layout(&mut space, 34, 32, 38);
        write(&mut space, 38, &[89, 30, 0, 0, 5]);
        let record = slots_at(&space, 0);
        let layout = slots_at(&space, 34);
        let map = slots_at(&space, 38);
        let rule = space.rule_of(0);
        let Space {
            memory: _,
            handles: _,
        } = space;
        assert_eq!(rt; rule, 30);
        assert_eq!(rt; three(record), ([Some(1), Some(32), Some(33)], true));
        assert_eq!(rt;
            three(record.below(34)),
            ([Some(1), Some(32), Some(33)], false)
        );
        assert_eq!(rt; three(record.below(33)), ([Some(1), Some(32), None], false));
        assert_eq!(rt; three(record.below(32)), ([Some(1), None, None], false));
        assert_eq!(rt; three(record.below(1)), ([None; 3], false));
        assert_eq!(rt; three(record.below(0)), ([None; 3], false));
        assert_eq!(rt; three(layout), ([Some(2), None, None], false));
        assert_eq!(rt; three(map), ([Some(2), Some(3), None], false));
        assert_eq!(rt; three(map.below(3)), ([Some(2), None, None], false));
    }

    // All of them, one after the other in the same space.
    fn passes<M: Memory, N: Memory>(space: &mut Space<M>, other: &mut Space<N>) -> [bool; 4] {
        let fanned = fanned(space, other);
        space.handles = [0; 32];
        other.handles = [0; 32];
        let chained = chained(space, other);
        space.handles = [0; 32];
        let bounds = bounds(space);
        space.handles = [0; 32];
        [fanned, chained, bounds, mixed(space)]
    }

    // All of them over a memory of 371 words, beside a space over words.
    fn pass_over<M: Memory + Drop>(memory: M) -> [bool; 4] {
        let mut words = [0u32; 371];
        let mut space = Space::new(memory);
        let mut other = Space::new(&mut words[..]);
        let passed = passes(&mut space, &mut other);
        let Space {
            memory: _,
            handles: _,
        } = space;
        let Space {
            memory: _,
            handles: _,
        } = other;
        passed
    }

    #[test]
    fn over_words(rt: HostRuntime) {
        let mut words = [0u32; 371];
        assert_eq!(rt; pass_over(&mut words[..]), [true; 4]);
    }

    #[test]
    fn over_bytes(rt: HostRuntime) {
        let mut bytes = [0u8; 1484];
        assert_eq!(rt; pass_over(&mut bytes[..]), [true; 4]);
    }
}
