// Readers over the characters of a statement: numbers, words and binary digits. Blanks mean nothing.
// The characters are the fields of the statement's cards, one after the other. Each reader takes all of them and the place where it begins,
// since the place of a fault is promised: cut off in front, the characters would say it only by how many are left.
#![tactic(auto)]

ghost use Rattle.std.specs.Prelude.{◌≡◌, ◌≤◌, length, not, position};
ghost use Rattle.cards.specs.Card.{is_blank};
ghost use Rattle.grammar.specs.Ahead.{Inks};
ghost use Rattle.grammar.specs.Readers.{DigitTo, Numbers, Words, Binaries};

const BLANK: u8 = b' ';

// A character that is no blank, its place, and the place behind it.
#[derive(Clone, Copy)]
pub struct Ink {
    pub code: u8,
    pub place: usize,
    pub next: usize,
}

// A number, and the place behind it.
#[derive(Clone, Copy)]
pub struct Digits {
    pub value: u16,
    pub next: usize,
}

// Where the first of the characters stands that is no blank, if one is there.
fn first_ink(chars: &[u8]) -> Option<usize>
    ensures { result ≡ position (λ c. not (is_blank c)) chars.now }
{
    chars.iter().position(|c| *c != BLANK)
}

// The next character that is no blank.
pub fn next_ink(chars: &[u8], at: usize) -> Option<Ink>
    requires { at ≤ length chars.now }
    ensures { Inks chars.now at result }
{
    let place = at + first_ink(&chars[at..])?;
    Some(Ink {
        code: chars[place],
        place,
        next: place + 1,
    })
}

// The digit that stands next, if it is none behind `last`; or the place of the fault.
fn digit(chars: &[u8], at: usize, last: u8) -> Result<Digits, usize>
    requires { at ≤ length chars.now }
    ensures { DigitTo last chars.now at result }
{
    match next_ink(chars, at) {
        Some(c) if (b'0'..=last).contains(&c.code) => Ok(Digits {
            value: u16::from(c.code - b'0'),
            next: c.next,
        }),
        Some(c) => Err(c.place),
        None => Err(chars.len()),
    }
}

// One or two digits, no leading zero; or the place of the first fault.
pub fn read_number(chars: &[u8], at: usize) -> Result<Digits, usize>
    requires { at ≤ length chars.now }
    ensures { Numbers chars.now at result }
{
    let first = digit(chars, at, b'9')?;
    if first.value == 0 {
        return Ok(first);
    }
    match digit(chars, first.next, b'9') {
        Ok(second) => Ok(Digits {
            value: 10 * first.value + second.value,
            next: second.next,
        }),
        Err(_) => Ok(first),
    }
}

// The place behind the word, read character by character; or the place of the first fault.
pub fn read_word(chars: &[u8], at: usize, word: &[u8]) -> Result<usize, usize>
    requires { at ≤ length chars.now }
    ensures { Words chars.now at word.now result }
{
    let mut next = at;
    for w in word {
        match next_ink(chars, next) {
            Some(c) if c.code == *w => next = c.next,
            Some(c) => return Err(c.place),
            None => return Err(chars.len()),
        }
    }
    Ok(next)
}

// The state that exactly k binary digits and then the end give, the first digit for V0; or the place of the first fault.
pub fn read_binary(chars: &[u8], at: usize, k: usize) -> Result<u64, usize>
    requires { (at ≤ length chars.now) × (k ≤ 64) }
    ensures { Binaries chars.now at k result }
{
    let mut state = 0u64;
    let mut next = at;
    for i in 0..k {
        let d = digit(chars, next, b'1')?;
        state += u64::from(d.value) << i;
        next = d.next;
    }
    if let Some(c) = next_ink(chars, next) {
        return Err(c.place);
    }
    Ok(state)
}
