// Replies in words: of a refusal what its number means, the card or line at fault and what to do; of an accepted deck a
// summary. Number, text, place, pieces and deck are the station's; only safety is promised here.
#![tactic(auto)]

ghost use Rattle.std.specs.Prelude.{◌≤◌};

use decks::{Deck, Reply};
use wording::page::Page;
use wording::words;

// What a text is made of.
#[derive(Clone, Copy)]
pub enum Form {
    Cards,
    Frames,
}

// The piece whose frames are read: its number, its variables, and how many initial states and equations were read.
#[derive(Clone, Copy)]
struct Piece {
    number: u64,
    vars: u64,
    initials: u64,
    equations: u64,
}

// ---- refusals

// The frame FF, and what its number means.
fn begin<'a>(out: &'a mut [u8], r: Reply) -> Page<'a> {
    let end = printing::put_refusal(r.number, r.text, r.place, out);
    let mut page = Page::after(out, end);
    page.put(format_args!("Refusal {}: {}\n", r.number, words::meaning(r.number)));
    page
}

// A place that is no card and no line.
fn put_place(page: &mut Page, r: Reply) {
    let place = r.place;
    match r.number {
        8 => page.put("The text ends before a statement that is due.\n"),
        15 => page.put(format_args!("V{place} has no equation.\n")),
        16 => page.put(
            "The text ends before a line that is due, or its last line lacks byte 10.\n",
        ),
        17 => page.put(format_args!(
            "The pieces need {place} bytes, and there is room for 65,536.\n"
        )),
        _ => {}
    }
}

// Whether the place is a card or a line.
fn is_line(r: Reply) -> bool {
    r.place != 0 && (r.number < 15 || r.number == 16)
}

// The card or line at a refusal's place, under a ruler, a card with a mark.
fn put_line_at(page: &mut Page, r: Reply, form: Form, text: &[u8]) {
    let line = showing::line_of(text, r.place);
    let (kind, column) = match form {
        Form::Cards => ("Card", showing::column_of(r.number, line)),
        Form::Frames => ("Line", None),
    };
    let name = if r.text == 2 { "claim" } else { "deck" };
    page.put(format_args!("{kind} {} of the {name}:\n", r.place));
    showing::put_ruled(page, line, column);
}

// What to do, at the end. Where the buffer is full its last bytes say that more was to come.
fn finish(mut page: Page, number: u64) -> usize {
    page.put(format_args!("What to do:\n{}", words::advice(number)));
    close(page)
}

fn close(page: Page) -> usize {
    page.close("\n(cut here: there is more to say than there is room for)\n")
}

fn refused(r: Reply, form: Form, text: &[u8], out: &mut [u8]) -> usize {
    let mut page = begin(out, r);
    if is_line(r) {
        put_line_at(&mut page, r, form, text);
    } else {
        put_place(&mut page, r);
    }
    finish(page, r.number)
}

// ---- summaries

// The variables of a set.
fn put_variables(page: &mut Page, set: u64) {
    for v in 0..decks::VARIABLES {
        if sets::member(set, v) {
            page.put(format_args!(" V{v}"));
        }
    }
}

impl Piece {
    // Before the first piece.
    fn none() -> Piece {
        Piece {
            number: 0,
            vars: 0,
            initials: 0,
            equations: 0,
        }
    }

    // The piece that begins with this line.
    fn next(self, line: &[u8]) -> Piece {
        Piece {
            number: self.number.wrapping_add(1),
            vars: lines::number_at(line, 2, 8).unwrap_or(0),
            initials: 0,
            equations: 0,
        }
    }

    fn put_conjunct(self, page: &mut Page, line: &[u8]) {
        page.put(format_args!("\nPiece {}: ", self.number));
        spelling::expression(page, line);
        page.put("\n");
    }

    // Its variables, how many of all they are and how many were cut away, and its initial states and equations.
    fn put_sizes(self, page: &mut Page, all: u64) {
        let cut = sets::size(sets::without(all, self.vars)) as u64;
        page.put("  variables:");
        put_variables(page, self.vars);
        page.put(format_args!(" ({} of {}; ", sets::size(self.vars), sets::size(all)));
        page.count(cut, " relay", " relays");
        page.put(" cut away)\n  ");
        page.count(self.initials, " initial state, ", " initial states, ");
        page.count(self.equations, " equation", " equations");
        page.put("\n");
    }

    // Reads a frame: the conjunct is told where it stands, the rest behind the last frame of a piece.
    fn read(&mut self, page: &mut Page, line: &[u8], all: u64) {
        match lines::pair_at(line, 0) {
            Some(1) => *self = self.next(line),
            Some(2) => self.initials = self.initials.wrapping_add(1),
            Some(3) => self.equations = self.equations.wrapping_add(1),
            Some(4) => self.put_conjunct(page, line),
            Some(5) => self.put_sizes(page, all),
            _ => {}
        }
    }
}

// All pieces, from their frames.
fn put_pieces(page: &mut Page, frames: &[u8], all: u64) {
    let mut piece = Piece::none();
    for line in frames.split(|b| *b == b'\n') {
        piece.read(page, line, all);
    }
}

fn summary(d: &Deck, pieces: u64, frames: &[u8], out: &mut [u8]) -> usize {
    let mut page = Page::after(out, 0);
    page.put("Accepted.\nVariables:");
    put_variables(&mut page, d.vars);
    page.put(format_args!(" ({})\n", sets::size(d.vars)));
    page.put(format_args!("Initial states: {}\n", d.initials));
    page.put(format_args!("Equations: {}\n", d.equations.count));
    page.put(format_args!("Pieces: {pieces}\n"));
    put_pieces(&mut page, frames, d.vars);
    close(page)
}

// What a deck of this form comes to.
pub fn deck(form: Form, text: &[u8], out: &mut [u8]) -> usize {
    let mut frames = io::large_buffer();
    let r = match form {
        Form::Cards => station::reduce_cards(text, &mut frames),
        Form::Frames => station::reduce_frames(text, &mut frames),
    };
    if r.number != 0 {
        let r = Reply {
            number: r.number,
            text: r.text,
            place: r.place,
        };
        return refused(r, form, text, out);
    }
    let read = match form {
        Form::Cards => station::read_cards(text),
        Form::Frames => station::read_frames(text),
    };
    let n = (r.second as usize).min(frames.len());
    summary(&read.deck, r.first, &frames[..n], out)
}

// ---- claims

// The number of two bytes whose pairs stand from a place of a claim on.
fn number_in(claim: &[u8], at: usize) -> u16
    requires { at ≤ 6 }
{
    let high = lines::pair_at(claim, at).unwrap_or(0);
    let low = lines::pair_at(claim, at + 2).unwrap_or(0);
    u16::from_be_bytes([high, low])
}

// p of a claim.
fn before_loop(claim: &[u8]) -> u64
    ensures { result ≤ 65535 }
{
    u64::from(number_in(claim, 2))
}

// c of a claim.
fn in_loop(claim: &[u8]) -> u64
    ensures { result ≤ 65535 }
{
    u64::from(number_in(claim, 6))
}

// State i of a claim, with its line.
fn put_state(page: &mut Page, words: &str, claim: &[u8], i: u64) {
    page.put(format_args!("{words} {i}: "));
    showing::put_line(page, showing::line_of(claim, i.saturating_add(2)));
}

// The state that a step enters.
fn entered(claim: &[u8], step: u64) -> u64 {
    let p = before_loop(claim);
    let next = step.saturating_add(1);
    if next < p + in_loop(claim) { next } else { p }
}

// The claim's states at fault.
fn put_run(page: &mut Page, r: Reply, claim: &[u8]) {
    match r.number {
        20 => put_state(page, "State", claim, 0),
        21 => {
            put_state(page, "The step leaves state", claim, r.place);
            put_state(page, "and enters state", claim, entered(claim, r.place));
        }
        _ => {}
    }
}

fn run_refused(r: Reply, claim: &[u8], out: &mut [u8]) -> usize {
    let mut page = begin(out, r);
    put_run(&mut page, r, claim);
    finish(page, r.number)
}

fn accepted(claim: &[u8], out: &mut [u8]) -> usize {
    let end = printing::put_refusal(0, 0, 0, out);
    let mut page = Page::after(out, end);
    page.put("Accepted: a run of the deck on which its property fails.\nThe run has ");
    page.count(
        before_loop(claim),
        " state before its loop and ",
        " states before its loop and ",
    );
    page.put(format_args!("{} in it.\n", in_loop(claim)));
    page.close("")
}

// What a claim on a deck of frames comes to.
pub fn check(deck: &[u8], claim: &[u8], out: &mut [u8]) -> usize {
    let r = station::check(deck, claim);
    if r.number == 0 {
        accepted(claim, out)
    } else if r.number > 19 {
        run_refused(r, claim, out)
    } else if r.text == 2 {
        refused(r, Form::Frames, claim, out)
    } else {
        refused(r, Form::Frames, deck, out)
    }
}
