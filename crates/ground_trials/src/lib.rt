// Tables for the ground: both memories, both schemes, and the words of values, headers and links at their edges.
#![tactic(auto)]

ghost use Rattle.scheme.specs.Meaning.{mask};

#[cfg(test)]
mod tests {
    use codec::header::Shape;
    use codec::{header, link, value};
    use memory::Memory;
    use scheme::{Mask, Prefix, Scheme};
    use std::process::Abort;

    // A memory of two words takes them at their places, and ignores what lies past the end.
    fn two_words<M: Memory>(rt: &impl Abort, memory: &mut M) {
        assert_eq!(rt; memory.length(), 2);
        memory.write(0, 0x0102_0304);
        memory.write(1, 0xfffe_fdfc);
        memory.write(2, 7);
        memory.write(usize::MAX, 7);
        assert_eq!(rt; memory.read(0), 0x0102_0304);
        assert_eq!(rt; memory.read(1), 0xfffe_fdfc);
        assert_eq!(rt; memory.read(2), 0);
        assert_eq!(rt; memory.read(usize::MAX), 0);
        assert_eq!(rt;
            within(memory, 1, 0x8000_0001),
            Some((0xfffe_fdfc, 0x8000_0001))
        );
        assert_eq!(rt; memory.read(0), 0x0102_0304);
        assert_eq!(rt;
            within(memory, 0, 0x7654_3210),
            Some((0x0102_0304, 0x7654_3210))
        );
        assert_eq!(rt; memory.read(1), 0x8000_0001);
        assert_eq!(rt;
            within(memory, 0, 0x0102_0304),
            Some((0x7654_3210, 0x0102_0304))
        );
        assert_eq!(rt;
            within(memory, 1, 0xfffe_fdfc),
            Some((0x8000_0001, 0xfffe_fdfc))
        );
        assert_eq!(rt; within(memory, 2, 7), None);
    }

    // What the calls for a place within read there, before and after one of them writes the word.
    fn within<M: Memory>(memory: &mut M, place: usize, word: u32) -> Option<(u32, u32)> {
        if place >= memory.length() {
            return None;
        }
        let before = memory.read_within(place);
        memory.write_within(place, word);
        if place >= memory.length() {
            return None;
        }
        Some((before, memory.read_within(place)))
    }

    #[test]
    fn words(rt: HostRuntime) {
        let mut words = [9u32; 2];
        let mut memory: &mut [u32] = &mut words;
        two_words(&rt, &mut memory);
        let mut none: &mut [u32] = &mut [];
        assert_eq!(rt; none.length(), 0);
        none.write(0, 1);
        assert_eq!(rt; none.read(0), 0);
    }

    // A test for each memory: what they share is `two_words`.
    #[test]
    fn bytes(rt: HostRuntime) {
        let mut bytes = [9u8; 11];
        let mut memory: &mut [u8] = &mut bytes;
        two_words(&rt, &mut memory);
        assert_eq!(rt; bytes, [1, 2, 3, 4, 255, 254, 253, 252, 9, 9, 9]);
    }

    fn filled<M: Memory>(memory: &mut M) {
        for (place, word) in [1, 2, 3, 4, 5u32].iter().enumerate() {
            memory.write(place, *word);
        }
    }

    fn held<M: Memory>(memory: &M) -> [u32; 5] {
        [0, 1, 2, 3, 4].map(|place| memory.read(place))
    }

    // Five words moved: over one another both ways, apart, none at all, and to or from where they do not all lie.
    fn moved<M: Memory>(rt: &impl Abort, memory: &mut M) {
        let table = [
            (1, 0, 4, [2, 3, 4, 5, 5u32]),
            (0, 1, 4, [1, 1, 2, 3, 4]),
            (2, 0, 3, [3, 4, 5, 4, 5]),
            (0, 2, 3, [1, 2, 1, 2, 3]),
            (0, 3, 2, [1, 2, 3, 1, 2]),
            (4, 0, 1, [5, 2, 3, 4, 5]),
            (1, 1, 4, [1, 2, 3, 4, 5]),
            (1, 4, 0, [1, 2, 3, 4, 5]),
            (5, 5, 0, [1, 2, 3, 4, 5]),
            (6, 0, 0, [1, 2, 3, 4, 5]),
            (0, 3, 3, [1, 2, 3, 4, 5]),
            (3, 0, 3, [1, 2, 3, 4, 5]),
            (0, 1, 5, [1, 2, 3, 4, 5]),
            (0, 0, 6, [1, 2, 3, 4, 5]),
            (1, 0, usize::MAX, [1, 2, 3, 4, 5]),
            (usize::MAX, 0, 2, [1, 2, 3, 4, 5]),
            (0, usize::MAX, 2, [1, 2, 3, 4, 5]),
        ];
        for (from, to, size, after) in table {
            filled(memory);
            memory.shift(from, to, size);
            assert_eq!(rt; held(memory), after);
        }
    }

    // Words that are there, with no room to spare at either end: down and up, apart and over one another, in place, and none.
    fn moved_within<M: Memory>(rt: &impl Abort, memory: &mut M) {
        let table = [
            (3, 0, 2, [4, 5, 3, 4, 5u32]),
            (2, 0, 2, [3, 4, 3, 4, 5]),
            (1, 0, 4, [2, 3, 4, 5, 5]),
            (0, 3, 2, [1, 2, 3, 1, 2]),
            (1, 3, 2, [1, 2, 3, 2, 3]),
            (0, 1, 4, [1, 1, 2, 3, 4]),
            (0, 0, 5, [1, 2, 3, 4, 5]),
            (5, 0, 0, [1, 2, 3, 4, 5]),
            (0, 5, 0, [1, 2, 3, 4, 5]),
        ];
        for (from, to, size, after) in table {
            filled(memory);
            if memory.length() == 5 && from <= 5 && to <= 5 && size <= 5 - from && size <= 5 - to {
                memory.shift_within(from, to, size);
            }
            assert_eq!(rt; held(memory), after);
        }
    }

    // Five words cleared: within, past the end, and none at all.
    fn cleared<M: Memory>(rt: &impl Abort, memory: &mut M) {
        let table = [
            (1, 3, [1, 0, 0, 4, 5u32]),
            (0, 1, [0, 2, 3, 4, 5]),
            (4, 5, [1, 2, 3, 4, 0]),
            (3, 6, [1, 2, 3, 0, 0]),
            (0, usize::MAX, [0, 0, 0, 0, 0]),
            (2, 2, [1, 2, 3, 4, 5]),
            (4, 1, [1, 2, 3, 4, 5]),
            (5, 6, [1, 2, 3, 4, 5]),
            (usize::MAX, usize::MAX, [1, 2, 3, 4, 5]),
        ];
        for (from, end, after) in table {
            filled(memory);
            memory.clear(from, end);
            assert_eq!(rt; held(memory), after);
        }
    }

    // Two words and zeros behind them in five words: within, past the end, and beyond it.
    fn fresh<M: Memory>(rt: &impl Abort, memory: &mut M) {
        let table = [
            (0, 5, [7, 8, 0, 0, 0u32]),
            (1, 4, [1, 7, 8, 0, 5]),
            (2, 4, [1, 2, 7, 8, 5]),
            (2, 6, [1, 2, 7, 8, 0]),
            (4, 6, [1, 2, 3, 4, 7]),
            (5, 8, [1, 2, 3, 4, 5]),
        ];
        for (place, end, after) in table {
            filled(memory);
            memory.write_fresh(place, 7, 8, end);
            assert_eq!(rt; held(memory), after);
        }
    }

    #[test]
    fn ranges_of_words(rt: HostRuntime) {
        let mut words = [9u32; 5];
        let mut memory: &mut [u32] = &mut words;
        moved(&rt, &mut memory);
        moved_within(&rt, &mut memory);
        cleared(&rt, &mut memory);
        fresh(&rt, &mut memory);
        let mut none: &mut [u32] = &mut [];
        none.shift(0, 0, 0);
        none.shift(0, 1, 1);
        none.clear(0, 1);
        assert_eq!(rt; none.read(0), 0);
    }

    // As many zeros as are set four at a time, and more than those.
    #[test]
    fn fresh_words(rt: HostRuntime) {
        let mut words = [9u32; 13];
        let mut memory: &mut [u32] = &mut words;
        memory.write_fresh(1, 7, 8, 12);
        memory.write_fresh(0, 1, 2, 8);
        assert_eq!(rt; words, [1, 2, 0, 0, 0, 0, 0, 0, 0, 0, 0, 0, 9]);
    }

    // The three bytes behind the fifth word stay.
    #[test]
    fn ranges_of_bytes(rt: HostRuntime) {
        let mut bytes = [9u8; 23];
        let mut memory: &mut [u8] = &mut bytes;
        moved(&rt, &mut memory);
        moved_within(&rt, &mut memory);
        cleared(&rt, &mut memory);
        fresh(&rt, &mut memory);
        let mut few: &mut [u8] = &mut bytes[20..];
        few.shift(0, 0, 1);
        few.clear(0, 1);
        assert_eq!(rt;
            bytes,
            [
                0, 0, 0, 1, 0, 0, 0, 2, 0, 0, 0, 3, 0, 0, 0, 4, 0, 0, 0, 5, 9, 9, 9
            ]
        );
    }

    // The rules at their edges: whether each is admitted, which of the fields 0, 30, 31 and 32 are raw, and the counts for 0, 31, 32 and 33.
    fn asked<S: Scheme>(scheme: &S, rule: u32) -> (bool, [bool; 4], [u32; 4]) {
        (
            scheme.admits(rule),
            [0, 30, 31, 32].map(|field| scheme.is_raw(rule, field)),
            [0, 31, 32, 33].map(|fields| scheme.raw_count(rule, fields)),
        )
    }

    #[test]
    fn prefix(rt: HostRuntime) {
        assert_eq!(rt; asked(&Prefix, 0), (true, [false; 4], [0; 4]));
        assert_eq!(rt;
            asked(&Prefix, 1),
            (true, [true, false, false, false], [0, 1, 1, 0])
        );
        assert_eq!(rt;
            asked(&Prefix, 31),
            (true, [true, true, false, false], [0, 31, 31, 0])
        );
        assert_eq!(rt;
            asked(&Prefix, 32),
            (true, [true, true, true, false], [0, 31, 32, 0])
        );
        assert_eq!(rt; asked(&Prefix, 33), (false, [false; 4], [0; 4]));
        assert_eq!(rt; asked(&Prefix, u32::MAX), (false, [false; 4], [0; 4]));
    }

    #[test]
    fn mask(rt: HostRuntime) {
        assert_eq!(rt; asked(&Mask, 0), (true, [false; 4], [0; 4]));
        assert_eq!(rt;
            asked(&Mask, 1),
            (true, [true, false, false, false], [0, 1, 1, 0])
        );
        assert_eq!(rt;
            asked(&Mask, 0x8000_0000),
            (true, [false, false, true, false], [0, 0, 1, 0])
        );
        assert_eq!(rt;
            asked(&Mask, u32::MAX),
            (true, [true, true, true, false], [0, 31, 32, 0])
        );
    }

    // MASK once more, with the three answers alone that a scheme must give.
    struct Three;

    impl Scheme for Three {
        ghost meaning = { λ _. mask };

        fn admits(&self, rule: u32) -> bool {
            Mask.admits(rule)
        }

        fn is_raw(&self, rule: u32, field: u32) -> bool {
            Mask.is_raw(rule, field)
        }

        fn raw_count(&self, rule: u32, n: u32) -> u32 {
            Mask.raw_count(rule, n)
        }
    }

    // All fields in one answer: bit i is field i.
    #[test]
    fn fields_at_once(rt: HostRuntime) {
        assert_eq!(rt;
            [0, 1, 3, 31, 32, 33, u32::MAX].map(|rule| Prefix.raw_fields(rule)),
            [0, 1, 7, 0x7FFF_FFFF, u32::MAX, 0, 0]
        );
        assert_eq!(rt;
            [0, 5, 1 << 31, u32::MAX].map(|rule| Mask.raw_fields(rule)),
            [0, 5, 1 << 31, u32::MAX]
        );
        assert_eq!(rt;
            [0, 5, 1 << 31, u32::MAX].map(|rule| Three.raw_fields(rule)),
            [0, 5, 1 << 31, u32::MAX]
        );
    }

    #[test]
    fn numbers(rt: HostRuntime) {
        let table = [
            (0, 1u32),
            (1, 5),
            (-1, 4_294_967_293),
            (-7, 4_294_967_269),
            (536_870_911, 2_147_483_645),
            (-536_870_912, 2_147_483_649),
        ];
        for (n, word) in table {
            assert_eq!(rt; value::encode(n), word);
            assert_eq!(rt; value::decode(word), n);
            assert!(rt; value::fits(n));
            assert!(rt; !value::refers(word));
        }
        assert!(rt; !value::fits(536_870_912));
        assert!(rt; !value::fits(-536_870_913));
    }

    #[test]
    fn objects(rt: HostRuntime) {
        assert_eq!(rt; header::header_of(Shape::Map, 5), 89);
        assert_eq!(rt; header::header_of(Shape::Layout, 4), 69);
        assert_eq!(rt; header::header_of(Shape::Record, 5), 81);
        assert_eq!(rt; header::marked(81), 83);
        assert_eq!(rt; header::unmarked(83), 81);
        assert_eq!(rt; header::size_in(83), 5);
        assert_eq!(rt; header::shape_in(89).map(Shape::number), Some(2));
        assert!(rt; header::is_marked(83) && header::is_unmarked(81));
        assert!(rt; !header::is_marked(81) && !header::is_unmarked(83));
        assert_eq!(rt;
            [80, 81, 82, 83, 85, 94, u32::MAX].map(header::has_mark),
            [false, false, true, true, false, true, true]
        );
        assert_eq!(rt; value::to_record(5), 22);
        assert_eq!(rt; value::to_class(55), 223);
        assert!(rt; value::refers(22) && value::place_of(223) == 55);
        assert_eq!(rt; link::link_to(16_384), 32_768);
        assert!(rt; link::ends_list(81) && !link::ends_list(32_768));
        assert_eq!(rt; link::address_of(32_768), 16_384);
    }
}
