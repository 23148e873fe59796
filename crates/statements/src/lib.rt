// The statement in hand, cards folded into it, and the walk over the cards from statement to statement.
#![tactic(auto)]

ghost use Rattle.std.specs.Prelude.{◌≡◌, [], ◌+◌, ◌<◌, ◌≤◌, length, take};
ghost use Rattle.cards.specs.Card.{cards_of, field_columns, kind_of};
ghost use Rattle.statements.specs.Hold.{held, Room, with_card, characters, continues, first_continues, continued, Formed, Placed, AtOpener, Takes, TakesNext};

use firstpass::{CardKind, Cards, column, field, is_comment, kind_of};

// The characters of a statement, its cards, and the columns of a card's field.
pub const CHARACTERS: usize = 1320;

pub const CARDS: usize = 20;

pub const FIELD: usize = 66;

// The column of a card that says whether it continues a statement.
const MARK: usize = 6;

// A statement in hand: the fields of its cards one after the other, each filled with blanks to its 66 columns, and the numbers of its cards.
// No heap: it has room for the most that a statement may have.
#[derive(Clone, Copy)]
pub struct Stmt {
    pub chars: [u8; CHARACTERS],
    pub used: usize,
    pub cards: [u64; CARDS],
    pub count: usize,
}

// A card that opens a statement: its number, what stands on it, and the cards behind it.
#[derive(Clone, Copy)]
pub struct Opener<'a> {
    pub n: u64,
    pub card: &'a [u8],
    pub behind: Cards<'a>,
}

impl Stmt {
    // Its characters.
    pub fn characters(&self) -> &[u8]
        requires { self.now.used ≤ characters }
        ensures { result.now ≡ take self.now.used self.now.chars }
    {
        &self.chars[..self.used]
    }
}

// No statement.
pub fn nothing() -> Stmt
    ensures { result ≡ held [] [] }
{
    Stmt {
        chars: [0; CHARACTERS],
        used: 0,
        cards: [0; CARDS],
        count: 0,
    }
}

// The field of card n behind those in hand.
fn append(stmt: &mut Stmt, n: u64, field: &[u8])
    requires { Room stmt.old × (length field.now ≤ field_columns) }
    ensures { stmt.new ≡ with_card stmt.old n field.now }
{
    let blanks = stmt.used + field.len();
    let end = stmt.used + FIELD;
    stmt.chars[stmt.used..blanks].copy_from_slice(field);
    stmt.chars[blanks..end].fill(b' ');
    stmt.cards[stmt.count] = n;
    stmt.used = end;
    stmt.count += 1;
}

// The next card that opens a statement.
pub fn opening<'a>(cards: Cards<'a>) -> Option<Opener<'a>>
    requires { Formed cards.n (cards_of cards.text.now) }
    ensures { AtOpener cards.entry result }
{
    let mut left = cards;
    while let Some((card, behind)) = left.split_first() {
        if kind_of(card) == CardKind::Opening {
            return Some(Opener {
                n: left.n,
                card,
                behind,
            });
        }
        left = behind;
    }
    None
}

// Whether a card continues a statement.
fn continues(card: &[u8]) -> bool
    ensures { result ≡ continues (kind_of card.now) }
{
    kind_of(card) == CardKind::Continuing
}

// Whether the first of these cards continues a statement: none does that has a blank in column 6. It is looked at before the card's end is
// looked for: where it lies behind the end, the card has a blank there too.
fn card_continues(left: Cards) -> bool
    ensures { result ≡ first_continues (cards_of left.entry.text.now) }
{
    if column(left.text, MARK) == b' ' {
        return false;
    }
    match left.split_first() {
        Some((card, _)) => continues(card),
        None => false,
    }
}

// Whether the first of these cards that is no comment, if there is one, continues the statement before it.
pub fn is_continued(cards: Cards) -> bool
    ensures { result ≡ continued (cards_of cards.entry.text.now) }
{
    let mut left = cards;
    while is_comment(left.text) {
        let Some((_, behind)) = left.split_first() else {
            return false;
        };
        left = behind;
    }
    card_continues(left)
}

// The statement that a card opens, with all its continuations, and the cards behind it.
pub fn whole_statement<'a>(first: Opener<'a>) -> (Stmt, Cards<'a>)
    requires { Placed first }
    ensures { Takes first.entry result.0 result.1 }
{
    let mut stmt = nothing();
    append(&mut stmt, first.n, field(first.card));
    let mut left = first.behind;
    while let Some((card, behind)) = left.split_first() {
        match kind_of(card) {
            CardKind::Comment => {},
            CardKind::Empty => return (stmt, left),
            CardKind::Opening => return (stmt, left),
            CardKind::Continuing => append(&mut stmt, left.n, field(card)),
        }
        left = behind;
    }
    (stmt, left)
}

// The next statement of these cards, with all its continuations, and the cards behind it.
pub fn next_statement<'a>(cards: Cards<'a>) -> Option<(Stmt, Cards<'a>)>
    requires { Formed cards.n (cards_of cards.text.now) }
    ensures { TakesNext cards.entry result }
{
    let first = opening(cards)?;
    Some(whole_statement(first))
}
