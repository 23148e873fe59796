// The words of the command line, the texts that they name, and the reply on standard output. Only safety and bounds are
// promised here; where a text cannot be read or a reply cannot be written, a message on standard error says what to do.
#![tactic(auto)]

ghost use Rattle.std.specs.Prelude.{◌≤◌, ◌≡◌, length, IfSome, IfOk};
ghost use Rattle.std.specs.Result.{result_ok};

use std::env::FillError;
use std::fmt::InlineText;
use std::fs::File;
use std::io::{Error, Read, Result};
use std::rt::{Env, Files};

// One byte more than a text may have: so many tell that it is too long.
const ENOUGH: usize = decks::TEXT + 1;

// The system's numbers of two errors, as std takes them: a name that is too long, and bytes that are no text.
const TOO_LONG: i32 = 36;

const NO_TEXT: i32 = 84;

// ---- texts

// Room for them.
pub fn room() -> [u8; ENOUGH]
    ensures { 64801 ≡ length result }
{
    [0; ENOUGH]
}

// Reads until the text is full, the input ends or a read fails. What a read takes sets the step, which no range knows.
fn read_input<'a, R: Read>(reader: &mut R, text: &'a mut [u8]) -> Result<&'a [u8]>
    ensures { IfOk result (λ read. length read.now ≤ length text.old) }
{
    let mut at = 0;
    while at < text.len() {
        let some = reader.read(&mut text[at..])?;
        if some == 0 {
            break;
        }
        at += some;
    }
    Ok(&text[..at])
}

// The system's words for an error, without the number that std puts behind them.
fn reason(message: &str) -> &str {
    match message.split_once(" (os error ") {
        Some((words, _)) => words,
        None => message,
    }
}

// Says that a text cannot be read, why, and what to do.
fn say_unread<E: Eprint>(rt: &E, name: &str, error: Error) {
    let message = InlineText::<128>::of(error);
    let why = reason(message.as_str());
    let _ = eprintln!(rt; "micaplume: cannot read {name}: {why}");
    let _ = eprintln!(rt;
        "micaplume: name a file that can be opened and read, or give the text on standard input with - for its name"
    );
}

// What was read, or nothing where it could not all be read; then a message says why.
fn told<'a, E: Eprint>(rt: &E, name: &str, got: Result<&'a [u8]>) -> Option<&'a [u8]>
    ensures { result ≡ result_ok got.entry }
{
    got.map_err(|error| say_unread(rt, name, error)).ok()
}

// The text on standard input, or nothing where it could not all be read.
pub fn read_standard<'a, R: std::io::Input + Eprint>(rt: &R, text: &'a mut [u8]) -> Option<&'a [u8]>
    ensures { IfSome result (λ read. length read.now ≤ length text.old) }
{
    told(rt, "standard input", read_input(&mut rt.reader(), text))
}

// The text in a file.
fn read_file<'a, R: Files>(rt: &R, name: &str, text: &'a mut [u8]) -> Result<&'a [u8]>
    ensures { IfOk result (λ read. length read.now ≤ length text.old) }
{
    read_input(&mut File::open(rt, name)?, text)
}

// ---- words

// Whether the command line has a word i.
fn has_word<R: Env>(rt: &R, i: usize) -> bool {
    let mut buffer = [0u8; 16];
    !matches!(rt.arg(i, &mut buffer), Err(FillError::NotPresent))
}

// How many words the command line has, the program's name among them, and `most` where it has more.
pub fn words<R: Env>(rt: &R, most: usize) -> usize
    ensures { result ≤ most }
{
    (0..most).find(|i| !has_word(rt, *i)).unwrap_or(most)
}

// Whether word i of the command line is this one.
pub fn is_word<R: Env>(rt: &R, i: usize, word: &[u8]) -> bool {
    let mut buffer = [0u8; 16];
    match rt.arg(i, &mut buffer) {
        Ok(n) => &buffer[..n] == word,
        Err(_) => false,
    }
}

// The text that word i of the command line names, or nothing where it could not all be read.
pub fn read_text<'a, R: Files + std::io::Input + Env + Eprint>(
    rt: &R,
    i: usize,
    text: &'a mut [u8],
) -> Option<&'a [u8]>
    ensures { IfSome result (λ read. length read.now ≤ length text.old) }
{
    if is_word(rt, i, b"-") {
        return read_standard(rt, text);
    }
    let mut buffer = io::buffer();
    let Ok(n) = rt.arg(i, &mut buffer) else {
        let error = Error::from_raw_os_error(TOO_LONG);
        say_unread(rt, "a file with so long a name", error);
        return None;
    };
    let Ok(name) = str::from_utf8(&buffer[..n]) else {
        let error = Error::from_raw_os_error(NO_TEXT);
        say_unread(rt, "a file whose name is not UTF-8", error);
        return None;
    };
    told(rt, name, read_file(rt, name, text))
}

// The set that word i of the command line gives.
pub fn read_set<R: Env>(rt: &R, i: usize) -> Option<u64> {
    let mut buffer = [0u8; 32];
    let n = rt.arg(i, &mut buffer).ok()?;
    lines::number_at(&buffer[..n], 0, 8)
}

// ---- replies

// Says that a reply is not, or not wholly, written, and what to do.
pub fn say_unwritten<R: Eprint>(rt: &R) {
    let _ = eprintln!(rt;
        "micaplume: standard output cannot be written, so no reply counts; see where it leads and run again"
    );
}

// Writes the first n bytes.
pub fn write_reply<R: Print + Eprint>(rt: &R, out: &[u8], n: usize) {
    if n <= out.len() && rt.write_all(&out[..n]).is_ok() {
        return;
    }
    say_unwritten(rt);
}
