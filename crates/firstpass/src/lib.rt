// The cards of a text; one card: its columns, its kind and its field; and the first pass, card by card, the faults 2 to 7.
#![tactic(auto)]

ghost use Rattle.std.specs.Prelude.{◌≡◌, not, ◌∷◌, ◌+◌, ◌-◌, ◌^◌, ◌<◌, ◌≤◌, length, take, drop, MatchOption};
ghost use Rattle.decks.specs.Answers.{said};
ghost use Rattle.cards.specs.Card.{cards_of, field_start, field_end, column, columns, every, is_blank, printable, is_comment, numbered, kind_of, opened, card_in_form, in_form};
ghost use Rattle.firstpass.specs.Passed.{between, kind_is, open_of, outcome_of};

use decks::Refusal;
use ends::line_end;

// The columns of a card (RULES 2.2): how many it has, where the statement field begins and ends; and the continuations that a statement may have.
pub const COLUMNS: usize = 80;

pub const FIELD_START: usize = 7;

pub const FIELD_END: usize = 72;

pub const CONTINUATIONS: u64 = 19;

// The kinds of card.
#[derive(Clone, Copy, PartialEq, Eq)]
pub enum CardKind {
    Comment,
    Empty,
    Opening,
    Continuing,
}

// As many bytes as are looked at together.
const BLOCK: usize = 8;

// The cards of a text from one of them on: what is left of the text, and the number of the first.
#[derive(Clone, Copy)]
pub struct Cards<'a> {
    pub text: &'a [u8],
    pub n: u64,
    pub ghost counted: { n + length text.now < 2 ^ 64 },
}

impl<'a> Cards<'a> {
    // All cards of a text.
    pub fn of(text: &'a [u8]) -> Cards<'a>
        ensures text { result.text.now ≡ text.now }
        ensures first { result.n ≡ 1 }
    {
        Cards { text, n: 1 }
    }

    // The first card, and those behind it; none where nothing is left of the text.
    pub fn split_first(self) -> Option<(&'a [u8], Cards<'a>)>
        ensures { MatchOption result (length self.entry.text.now ≡ 0) (λ p. (cards_of self.entry.text.now ≡ p.0.now ∷ cards_of p.1.text.now) × (p.1.n ≡ self.entry.n + 1) × (length p.1.text.now < length self.entry.text.now)) }
    {
        let text = self.text;
        if text.is_empty() {
            return None;
        }
        let end = line_end(text, 0);
        let next = text.len().min(end + 1);
        let behind = Cards {
            text: &text[next..],
            n: self.n + 1,
        };
        Some((&text[..end], behind))
    }
}

// Every byte is one of low to high. None is passed over, so that they are looked at side by side.
fn side_by_side(part: &[u8], low: u8, high: u8) -> bool
    ensures { result ≡ every (between low high) part.now }
{
    let mut all = true;
    for b in part {
        all = all & (low <= *b) & (*b <= high);
    }
    all
}

// Every byte is one of low to high. In blocks: to look at a whole part side by side takes up to half as long again on cards that
// are soon known not to be blank, and the library's all, byte by byte, twice as long on full cards.
fn all_between(part: &[u8], low: u8, high: u8) -> bool
    ensures { result ≡ every (between low high) part.now }
{
    let mut i = 0;
    while BLOCK <= part.len() - i {
        if !side_by_side(&part[i..i + BLOCK], low, high) {
            return false;
        }
        i += BLOCK;
    }
    side_by_side(&part[i..], low, high)
}

// Every byte of the card is one that a card may hold.
pub fn all_printable(card: &[u8]) -> bool
    ensures { result ≡ every printable card.now }
{
    all_between(card, b' ', b'~')
}

// Columns first to last are blank.
pub fn blank_columns(card: &[u8], first: usize, last: usize) -> bool
    requires { 1 ≤ first }
    ensures { result ≡ every is_blank (columns first last card.now) }
{
    match card.get(first - 1..last.min(card.len())) {
        Some(part) => all_between(part, b' ', b' '),
        None => true,
    }
}

// Column c.
pub fn column(card: &[u8], c: usize) -> u8
    requires { 1 ≤ c }
    ensures { result ≡ column c card.now }
{
    card.get(c - 1).copied().unwrap_or(b' ')
}

// Columns 73 to 80 are all blank or exactly eight digits.
pub fn is_numbered(card: &[u8]) -> bool
    ensures { result ≡ numbered card.now }
{
    if blank_columns(card, FIELD_END + 1, COLUMNS) {
        return true;
    }
    match card.get(FIELD_END..COLUMNS) {
        Some(part) => all_between(part, b'0', b'9'),
        None => false,
    }
}

// Column 1 is `C` or `*`.
pub fn is_comment(card: &[u8]) -> bool
    ensures { result ≡ is_comment card.now }
{
    matches!(column(card, 1), b'C' | b'*')
}

// The kind of a card.
pub fn kind_of(card: &[u8]) -> CardKind
    ensures { kind_is result ≡ kind_of card.now }
{
    if is_comment(card) {
        return CardKind::Comment;
    }
    if blank_columns(card, 1, FIELD_END) {
        return CardKind::Empty;
    }
    match column(card, 6) {
        b' ' | b'0' => CardKind::Opening,
        _ => CardKind::Continuing,
    }
}

// The statement field as it stands on the card: from its seventh byte to at most its seventy-second.
pub fn field<'a>(card: &'a [u8]) -> &'a [u8]
    ensures { result.now ≡ drop (field_start - 1) (take field_end card.now) }
{
    let start = card.len().min(FIELD_START - 1);
    let end = card.len().min(FIELD_END);
    &card[start..end]
}

// What a card of this kind, number n, makes of the open statement, of which it is known how many cards continue it: 6 and 7.
#[tactic(auto, unfolding(cards::specs::Card::opened))]
fn opened(n: u64, kind: CardKind, hand: Option<u64>) -> Result<Option<u64>, Refusal>
    ensures { outcome_of result ≡ opened n (kind_is kind) (open_of hand) }
{
    match kind {
        CardKind::Comment => Ok(hand),
        CardKind::Empty => Ok(None),
        CardKind::Opening => Ok(Some(0)),
        CardKind::Continuing => match hand {
            None => Err(Refusal::NoneOpen(n)),
            Some(k) if k < CONTINUATIONS => Ok(Some(k + 1)),
            Some(_) => Err(Refusal::TooManyCards(n)),
        },
    }
}

// Whether 4 and 5 are looked for: comments are free of them.
fn is_judged(card: &[u8]) -> bool
    ensures { result ≡ not (is_comment card.now) }
{
    !is_comment(card)
}

// Card n, with what the cards before it left open: 2 to 7 in number order.
pub fn card_fault(card: &[u8], n: u64, hand: Option<u64>) -> Result<Option<u64>, Refusal>
    ensures { outcome_of result ≡ card_in_form n card.now (open_of hand) }
{
    if !all_printable(card) {
        return Err(Refusal::BadByte(n));
    }
    if COLUMNS < card.len() {
        return Err(Refusal::TooWide(n));
    }
    if is_judged(card) {
        if !blank_columns(card, 1, 5) {
            return Err(Refusal::BadStart(n));
        }
        if !is_numbered(card) {
            return Err(Refusal::BadNumber(n));
        }
    }
    opened(n, kind_of(card), hand)
}

// The first pass, card by card: the first card's fault, where one has one.
pub fn first_pass(text: &[u8]) -> Result<(), Refusal>
    ensures { result ≡ said (in_form (cards_of text.now)) }
{
    let mut cards = Cards::of(text);
    let mut hand = None;
    while let Some((card, behind)) = cards.split_first() {
        hand = card_fault(card, cards.n, hand)?;
        cards = behind;
    }
    Ok(())
}
