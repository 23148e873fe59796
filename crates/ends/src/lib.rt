// Where a line of a text ends: a card, or a frame.
#![tactic(auto)]

ghost use Rattle.std.specs.Prelude.{◌≡◌, ◌+◌, ◌≤◌, ltb, length, drop};
ghost use Rattle.ends.specs.Ends.{line_length};

// Byte 10 ends a line.
const LINE_END: u8 = 10;

// As many bytes as are looked at together. The library's `position` alone looks at one byte after the other, and takes more than four
// times as long on lines of 80 bytes, and half as long again on lines of 20.
const BLOCK: usize = 8;

// Whether a line that begins with this block ends within it. No byte is passed over, so that they are looked at side by side.
fn ends_within(block: &[u8]) -> bool
    ensures { result ≡ ltb (line_length block.now) (length block.now) }
{
    let mut found = false;
    for b in block {
        found |= *b == LINE_END;
    }
    found
}

// Behind the blocks from a place of the text on within which its line does not end.
fn past_blocks(text: &[u8], at: usize) -> usize
    requires { at ≤ length text.now }
    ensures { (at + line_length (drop at text.now) ≡ result + line_length (drop result text.now)) × (at ≤ result) × (result ≤ length text.now) }
{
    let mut i = at;
    for block in text[at..].chunks_exact(BLOCK) {
        if ends_within(block) {
            return i;
        }
        i += BLOCK;
    }
    i
}

// Where the line that begins at a place of the text ends: at its byte 10, or at the end of the text.
pub fn line_end(text: &[u8], at: usize) -> usize
    requires { at ≤ length text.now }
    ensures { (result ≡ at + line_length (drop at text.now)) × (at ≤ result) × (result ≤ length text.now) }
{
    for i in past_blocks(text, at)..text.len() {
        if text[i] == LINE_END {
            return i;
        }
    }
    text.len()
}
