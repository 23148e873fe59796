// A page: words put into a lent buffer one after the other, as far as there is room.
ghost use Rattle.std.specs.Prelude.{◌≤◌};

use std::fmt::{Display, Result, Write};

// The buffer, and how many of its bytes were put.
#[derive(Drop)]
pub struct Page<'a> {
    out: &'a mut [u8],
    end: usize,
}

impl<'a> Page<'a> {
    // A page whose first bytes stand in the buffer already.
    pub fn after(out: &'a mut [u8], end: usize) -> Page<'a> {
        Page { out, end }
    }

    pub fn byte(&mut self, b: u8)
        ensures { self.old.end ≤ self.new.end }
    {
        if self.end < self.out.len() {
            self.out[self.end] = b;
            self.end += 1;
        }
    }

    // Bytes that need not be text.
    pub fn bytes(&mut self, some: &[u8])
        ensures { self.old.end ≤ self.new.end }
    {
        for b in some {
            self.byte(*b);
        }
    }

    // Words, a number, or both as format_args! joins them.
    pub fn put<D: Display + Drop>(&mut self, words: D) {
        let _ = self.write(words);
    }

    // A number and what it counts, by its name for one and its name for any other number.
    pub fn count(&mut self, n: u64, one: &str, more: &str) {
        let name = if n == 1 { one } else { more };
        self.put(format_args!("{n}{name}"));
    }

    // How many bytes the page has. Where it is full its last bytes are the note.
    pub fn close(mut self, note: &str) -> usize {
        let room = self.out.len();
        if self.end >= room && note.len() <= room {
            self.end = room - note.len();
            self.put(note);
        }
        self.end
    }
}

impl Write for Page<'_> {
    // What has no room is left out, which is no error.
    fn write_str(&mut self, s: &str) -> Result {
        self.bytes(s.as_bytes());
        Ok(())
    }
}
