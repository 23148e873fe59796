// A bundle of cases read piece by piece. Only safety and bounds are promised here: what the cases reply is compared
// with stored replies.
#![tactic(auto)]

ghost use Rattle.std.specs.Prelude.{◌≡◌, ◌≤◌, length, IfSome};

use std::io::Read;

// The most bytes that a case lends.
pub const ROOM: usize = 65520;

// The bytes behind the lent ones that the digest covers.
pub const BEHIND: usize = 16;

// What stands before the texts of a case, and the texts in the buffers lent for them.
#[derive(Clone, Copy)]
pub struct Case<'a> {
    pub operation: u8,
    pub set: u64,
    pub room: usize,
    pub deck: &'a [u8],
    pub claim: &'a [u8],
    ghost lent: { room ≤ 65520 },
}

// A text that is read into a lent buffer, as far as there is room, and how many bytes it has.
#[derive(Drop)]
struct Text<'a> {
    room: &'a mut [u8],
    end: usize,
    ghost within: { end ≤ length room.now },
}

impl<'a> Text<'a> {
    fn put(&mut self, b: u8)
        ensures { length self.new.room.now ≡ length self.old.room.now }
    {
        if self.end < self.room.len() {
            self.room[self.end] = b;
            self.end += 1;
        }
    }

    // The bytes from `from` on, which stand there once, so many times.
    fn repeat(&mut self, from: usize, times: u64)
        ensures { length self.new.room.now ≡ length self.old.room.now }
    {
        let to = self.end;
        if times == 0 {
            self.end = to.min(from);
        }
        for _ in 1..times {
            for i in from..to {
                let b = self.room[i];
                self.put(b);
            }
        }
    }

    fn bytes(self) -> &'a [u8]
        ensures { length result.now ≤ length self.entry.room.now }
    {
        let Text { room, end } = self;
        &room[..end]
    }
}

// The value of an upper-case hexadecimal digit. Any other byte counts as 0, as at the end of a bundle that is cut short.
fn digit(b: u8) -> u64 {
    match b {
        b'0'..=b'9' => u64::from(b - b'0'),
        b'A'..=b'F' => u64::from(b - b'A' + 10),
        _ => 0,
    }
}

// Where the bytes of a buffer that were not yet taken begin, and where those that were read end.
#[derive(Clone, Copy)]
pub struct Stream {
    pub at: usize,
    pub end: usize,
}

// A reader, the lent buffer that holds what was read, and what of it was taken.
#[derive(Drop)]
pub struct Source<'a, R> {
    reader: R,
    buffer: &'a mut [u8],
    stream: Stream,
    ghost within: { stream.end ≤ length buffer.now },
}

impl<'a, R: Read> Source<'a, R> {
    // Nothing read yet.
    pub fn new(reader: R, buffer: &'a mut [u8]) -> Source<'a, R> {
        Source {
            reader,
            buffer,
            stream: Stream { at: 0, end: 0 },
        }
    }

    // The next byte of the input. A read that fails is its end.
    pub fn next_byte(&mut self) -> Option<u8> {
        if self.stream.at >= self.stream.end {
            let end = self.reader.read(self.buffer).unwrap_or(0);
            self.stream = Stream { at: 0, end };
        }
        let Stream { at, end } = self.stream;
        if at < end {
            self.stream.at = at + 1;
            Some(self.buffer[at])
        } else {
            None
        }
    }

    // A number of k hexadecimal digits, modulo 2 to the 64th.
    pub fn number(&mut self, k: usize) -> u64 {
        let mut value = 0u64;
        for _ in 0..k {
            value = (value << 4).wrapping_add(self.next_byte().map_or(0, digit));
        }
        value
    }

    // The next segment: so many bytes, so many times.
    fn segment(&mut self, text: &mut Text)
        ensures { length text.new.room.now ≡ length text.old.room.now }
    {
        let times = self.number(4);
        let size = self.number(4);
        let from = text.end;
        for _ in 0..size {
            text.put(self.next_byte().unwrap_or(0));
        }
        text.repeat(from, times);
    }

    // The next text, as far as it has room.
    pub fn text<'b>(&mut self, room: &'b mut [u8]) -> &'b [u8]
        ensures { length result.now ≤ length room.old }
    {
        let mut text = Text { room, end: 0 };
        for _ in 0..self.number(2) {
            self.segment(&mut text);
        }
        text.bytes()
    }

    // The next case, if there is one.
    pub fn next_case<'b>(&mut self, deck: &'b mut [u8], claim: &'b mut [u8]) -> Option<Case<'b>>
        ensures { IfSome result (λ case. (length case.deck.now ≤ length deck.old) × (length case.claim.now ≤ length claim.old)) }
    {
        let operation = self.next_byte()?;
        let set = self.number(16);
        let room = (self.number(8) as usize).min(ROOM);
        let deck = self.text(deck);
        let claim = self.text(claim);
        self.next_byte();
        Some(Case {
            operation,
            set,
            room,
            deck,
            claim,
        })
    }
}
