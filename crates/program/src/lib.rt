// The program: its help and its commands. What is printed is printing's to promise and explaining's to say; where
// nothing is printed, a message on standard error says what to do.
#![tactic(auto)]

use channels::{is_word, read_set, read_standard, read_text, room, words, write_reply};
use explaining::Form;
use station::{Cards, Frames};
use std::rt::{Env, Files};

// What is asked of one text.
#[derive(Clone, Copy)]
enum Asked {
    Deck,
    Pieces,
    Explained,
}

// ---- help

// The commands, one a line.
const COMMANDS: &str = "\
micaplume                              cards on standard input: prints the pieces
micaplume deck cards|frames FILE       prints the deck as frames
micaplume pieces cards|frames FILE     prints the pieces
micaplume cone FILE SET                prints the cone of a set in a deck of frames, and its size
micaplume check DECK CLAIM             prints the verdict on a claimed run, both texts as frames
micaplume explain cards|frames FILE    says in words what the deck comes to
micaplume explain check DECK CLAIM     says in words what the claim comes to
micaplume help                         prints these lines
FILE, DECK and CLAIM are names of files; one of them may be - for standard input. SET is sixteen
hexadecimal digits, bit i for Vi. A refusal is one frame FF: number, text, place.
";

// Says that the words of the command line are no command, and which are.
fn say_wrong<R: Eprint>(rt: &R) {
    let _ = eprint!(rt; "micaplume: these words are no command. Use one of:\n{COMMANDS}");
}

// ---- replies

// Prints what is put into a lent buffer.
fn print_reply<R: Print + Eprint, F: FnOnce(&mut [u8]) -> usize>(rt: &R, put: F)
    requires { F.IsAlwaysCallable put }
{
    let mut out = io::large_buffer();
    let n = put(&mut out);
    write_reply(rt, &out, n);
}

// What is asked of a text, into a lent buffer, and how many bytes it takes.
fn put_answer(asked: Asked, form: Form, text: &[u8], out: &mut [u8]) -> usize {
    match (asked, form) {
        (Asked::Deck, Form::Cards) => printing::deck::<Cards>(text, out),
        (Asked::Deck, Form::Frames) => printing::deck::<Frames>(text, out),
        (Asked::Pieces, Form::Cards) => printing::pieces::<Cards>(text, out),
        (Asked::Pieces, Form::Frames) => printing::pieces::<Frames>(text, out),
        (Asked::Explained, _) => explaining::deck(form, text, out),
    }
}

// Cards on standard input: the pieces.
fn standard<R: Input + Print + Eprint>(rt: &R) {
    let mut text = room();
    if let Some(text) = read_standard(rt, &mut text) {
        print_reply(rt, |out: &mut [u8]| printing::pieces::<Cards>(text, out));
    }
}

// A command on the text that word 3 names.
fn on_text<R: Files + Input + Env + Print + Eprint>(rt: &R, asked: Asked, form: Form) {
    let mut text = room();
    if let Some(text) = read_text(rt, 3, &mut text) {
        print_reply(rt, |out: &mut [u8]| put_answer(asked, form, text, out));
    }
}

// The cone of a set in a deck of frames.
fn on_cone<R: Files + Input + Env + Print + Eprint>(rt: &R) {
    let Some(set) = read_set(rt, 3) else {
        let _ = eprintln!(rt;
            "micaplume: give the set as sixteen digits 0 to 9 and A to F, bit i for Vi: 0000000000000005 is V0 and V2"
        );
        return;
    };
    let mut text = room();
    if let Some(text) = read_text(rt, 2, &mut text) {
        print_reply(rt, |out: &mut [u8]| printing::cone(text, set, out));
    }
}

// Prints what is put of the deck that word i names and the claim that word j names. It ends as print_reply does: a
// closure that calls the parameter got no proof.
fn on_claim<R: Files + Input + Env + Print + Eprint, F: FnOnce(&[u8], &[u8], &mut [u8]) -> usize>(
    rt: &R,
    i: usize,
    j: usize,
    put: F,
)
    requires { F.IsAlwaysCallable put }
{
    if is_word(rt, i, b"-") && is_word(rt, j, b"-") {
        let _ = eprintln!(rt;
            "micaplume: deck and claim cannot both be read from standard input; name a file for one of them"
        );
        return;
    }
    let mut deck = room();
    let Some(deck) = read_text(rt, i, &mut deck) else {
        return;
    };
    let mut claim = room();
    let Some(claim) = read_text(rt, j, &mut claim) else {
        return;
    };
    let mut out = io::large_buffer();
    let n = put(deck, claim, &mut out);
    write_reply(rt, &out, n);
}

// ---- commands

// What the first word asks of a text.
fn asked_of<R: Env>(rt: &R) -> Option<Asked> {
    if is_word(rt, 1, b"deck") {
        Some(Asked::Deck)
    } else if is_word(rt, 1, b"pieces") {
        Some(Asked::Pieces)
    } else if is_word(rt, 1, b"explain") {
        Some(Asked::Explained)
    } else {
        None
    }
}

// What the second word says that the text is made of.
fn form_of<R: Env>(rt: &R) -> Option<Form> {
    if is_word(rt, 2, b"cards") {
        Some(Form::Cards)
    } else if is_word(rt, 2, b"frames") {
        Some(Form::Frames)
    } else {
        None
    }
}

// A command of three words.
fn three_words<R: Files + Input + Env + Print + Eprint>(rt: &R) {
    if is_word(rt, 1, b"cone") {
        on_cone(rt);
    } else if is_word(rt, 1, b"check") {
        on_claim(rt, 2, 3, |deck: &[u8], claim: &[u8], out: &mut [u8]| {
            printing::check(deck, claim, out)
        });
    } else if let (Some(asked), Some(form)) = (asked_of(rt), form_of(rt)) {
        on_text(rt, asked, form);
    } else {
        say_wrong(rt);
    }
}

// A command of four words.
fn four_words<R: Files + Input + Env + Print + Eprint>(rt: &R) {
    if is_word(rt, 1, b"explain") && is_word(rt, 2, b"check") {
        on_claim(rt, 3, 4, |deck: &[u8], claim: &[u8], out: &mut [u8]| {
            explaining::check(deck, claim, out)
        });
    } else {
        say_wrong(rt);
    }
}

// The command that the words of the command line are.
pub fn run<R: Files + Input + Env + Print + Eprint>(rt: &R) {
    match words(rt, 6) {
        0 | 1 => standard(rt),
        2 if is_word(rt, 1, b"help") => write_reply(rt, COMMANDS.as_bytes(), COMMANDS.len()),
        4 => three_words(rt),
        5 => four_words(rt),
        _ => say_wrong(rt),
    }
}
