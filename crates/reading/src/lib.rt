// The reader of decks.
#![tactic(auto)]

ghost use Rattle.std.specs.Prelude.{◌≡◌, ◌≤◌, drop, IfErr};
ghost use Rattle.logic.specs.Decks.{base};
ghost use Rattle.decks.specs.Stored.{blank};
ghost use Rattle.decks.specs.Lent.{ReadInto, RowsBlank, Uncounted};
ghost use Rattle.frames.specs.Read.{Due as FrameDue, DueNone, Sofar, count_line, permits, deck_line, read_deck};
ghost use Rattle.decklines.specs.Held.{due_of, held_of, line_of, deck_of, Came};
ghost use Rattle.reading.specs.Within.{Within};

use decklines::{Due, Held};
use decks::{Deck, Refusal};

// The kinds of a deck's frames. They are bytes of the text: an enum would need a case for every other byte, and say no more than the
// `match` in which they stand.
const SET: u8 = 1;

const INIT: u8 = 2;

const EQUATION: u8 = 3;

const PROPERTY: u8 = 4;

const COUNT: u8 = 5;

// The text at fault.
const DECK_TEXT: u64 = 1;

// Whether a frame of the kind may stand where one is due.
fn permitted(due: Due, kind: u8) -> bool
    ensures { (d : FrameDue) → due ≡ due_of d → result ≡ permits d kind }
{
    match due {
        Due::Set => kind == SET,
        Due::Init => kind == INIT,
        Due::Any => kind == INIT || kind == EQUATION || kind == PROPERTY,
        Due::Equation => kind == EQUATION || kind == PROPERTY,
        Due::Count => kind == COUNT,
        Due::Nothing => false,
    }
}

// 05: the number of frames before it.
fn count_line(line: &[u8], n: u64, h: Held) -> Result<Held, Refusal>
    requires { 1 ≤ n }
    ensures { (s : Sofar) → h ≡ held_of s → result ≡ line_of (count_line 1 n (drop 2 line.now) (record { due = DueNone; deck = s.deck })) }
{
    if !lines::counts(line, n) {
        return Err(Refusal::BadFrame(DECK_TEXT, n));
    }
    Ok(Held {
        due: Due::Nothing,
        ..h
    })
}

// Line n of a deck.
fn deck_line(line: &[u8], n: u64, h: Held, deck: &mut Deck) -> Result<Held, Refusal>
    requires { (1 ≤ n) × (h.used ≤ base.equation_nodes) × (deck.old.initials ≤ base.initials) × (deck.old.equations.count ≤ base.equations) }
    ensures { (s : Sofar) → Within s → h ≡ held_of s → deck.old ≡ deck_of s → Came deck_of (deck_line n line.now s) result deck.new }
{
    let Some(kind) = lines::pair_at(line, 0) else {
        return Err(Refusal::BadFrame(DECK_TEXT, n));
    };
    if !permitted(h.due, kind) {
        return Err(Refusal::BadFrame(DECK_TEXT, n));
    }
    match kind {
        SET => decklines::set_alone(line, n, deck),
        INIT => decklines::init_line(line, n, h, deck),
        EQUATION => decklines::equation_line(line, n, h, deck),
        PROPERTY => decklines::property_line(line, n, h, deck),
        _ => count_line(line, n, h),
    }
}

// The lines of a text, into a deck of zeros.
fn all_lines(text: &[u8], deck: &mut Deck) -> Result<(), Refusal>
    requires { deck.old ≡ blank }
    ensures { ReadInto (read_deck text.now) result deck.new }
{
    if text.len() > decks::TEXT {
        return Err(Refusal::TooLong(DECK_TEXT));
    }
    let mut held = decklines::nothing();
    let mut at = 0;
    let mut n = 1u64;
    // A claim's lines are gone over in the same way (`claimreading`). One walk for both would need a trait with ghost members and laws for what each line asks for and leaves, and a type that lends each reader its rows: more than both loops, and no plainer.
    while at < text.len() {
        let end = ends::line_end(text, at);
        if end == text.len() {
            return Err(Refusal::BadFrame(DECK_TEXT, 0));
        }
        held = deck_line(&text[at..end], n, held, deck)?;
        at = end + 1;
        n += 1;
    }
    if held.due != Due::Nothing {
        return Err(Refusal::BadFrame(DECK_TEXT, 0));
    }
    let missing = sets::without(deck.vars, held.covered);
    if missing != 0 {
        return Err(Refusal::NoEquation(sets::lowest(missing) as u64));
    }
    Ok(())
}

// A text read as a deck, into rows of zeros, whatever the variables and the counts beside them are. Behind a refusal these are 0.
pub fn read_deck(text: &[u8], deck: &mut Deck) -> Result<(), Refusal>
    requires { RowsBlank deck.old }
    ensures read { ReadInto (read_deck text.now) result deck.new }
    ensures refused { IfErr result (λ a. Uncounted deck.new) }
{
    deck.uncount();
    let done = all_lines(text, deck);
    if done.is_err() {
        deck.uncount();
    }
    done
}
