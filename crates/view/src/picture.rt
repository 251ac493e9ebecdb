// A heap of 64 words, drawn: one character for each word.
use codec::header::{Shape, is_marked, shape_in, size_in};
use codec::link::ends_list;
use heap::Begun;
use memory::Memory;
use scheme::Scheme;
use std::fmt;

const WORDS: u32 = 64;

const FREE: char = '.';

/// The characters of the words, by their place.
#[derive(Clone, Copy)]
pub struct Picture {
    words: [char; WORDS as usize],
}

/// The characters of an object's header and of its other words, from its header: capitals where it is marked, and so live.
fn letters(header: u32) -> (char, char) {
    if !is_marked(header) {
        return ('x', '-');
    }
    match shape_in(header) {
        Some(Shape::Record) => ('R', 'r'),
        Some(Shape::Layout) => ('L', 'l'),
        _ => ('M', 'm'),
    }
}

impl Picture {
    /// A heap with no object.
    pub fn blank() -> Picture {
        Picture {
            words: [FREE; WORDS as usize],
        }
    }

    /// The heap with its reachable objects marked.
    pub fn of<M: Memory, S: Scheme>(begun: &Begun<M, S>) -> Picture {
        let mut picture = Picture::blank();
        picture.draw_records(begun);
        picture.draw_classes(begun);
        picture
    }

    /// Records lie from the left, each behind its header.
    // Places by hand, for classes too: a step is as long as the object there, which no range knows.
    fn draw_records<M: Memory, S: Scheme>(&mut self, begun: &Begun<M, S>) {
        let mut at = 0u32;
        for _ in 0..WORDS {
            let header = begun.word(at);
            let size = size_in(header);
            if at >= WORDS || !ends_list(header) || size > WORDS - at {
                break;
            }
            self.draw(at, size, header);
            at += size;
        }
    }

    /// Classes lie from the right, each before its boundary tag.
    fn draw_classes<M: Memory, S: Scheme>(&mut self, begun: &Begun<M, S>) {
        let mut end = WORDS;
        for _ in 0..WORDS {
            let size = begun.word(end.saturating_sub(1));
            if size == 0 || size > end {
                break;
            }
            end -= size;
            self.draw(end, size, begun.word(end));
        }
    }

    fn draw(&mut self, place: u32, size: u32, header: u32) {
        let (head, body) = letters(header);
        let from = place as usize;
        if let Some(object) = self.words.get_mut(from..from + size as usize) {
            object.fill(body);
            if let Some(first) = object.first_mut() {
                *first = head;
            }
        }
    }
}

impl fmt::Display for Picture {
    fn fmt<W: fmt::Write>(&self, f: &mut fmt::Formatter<W>) -> fmt::Result {
        // All in one piece: a call for each character would be half of what the program does.
        let text = self
            .words
            .map(|letter| u8::try_from(letter).unwrap_or(b'?'));
        f.write_str(str::from_utf8(&text).map_err(|_| fmt::Error)?)
    }
}
