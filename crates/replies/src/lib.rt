// Replies: number, text and place of what was read, and beside them its deck, or what writing, reducing or closing it gives.
#![tactic(auto)]

ghost use Rattle.std.specs.Prelude.{◌≡◌, List, ℕ};
ghost use Rattle.logic.specs.Decks.{Deck as Its};
ghost use Rattle.decks.specs.Answers.{Outcome, reply_of};
ghost use Rattle.decks.specs.Lent.{ReadInto};
ghost use Rattle.replies.specs.Replies.{deck_reply, count_reply, read_reply, write_reply, write_buffer, reduce_reply, reduce_buffer, cone_reply};
ghost use Rattle.replies.specs.Readable.{Readable};

use decks::{Deck, Refusal, Reply};

// A reply that returns a deck. Its number, text and place are those of the word for C.
#[derive(Drop)]
pub struct DeckReply {
    pub number: u64,
    pub text: u64,
    pub place: u64,
    pub deck: Deck,
}

// A reply that returns two counts: bytes and 0 of a write, pieces and bytes of a reduction, the set and its size of a cone.
#[derive(Clone, Copy)]
pub struct CountReply {
    pub number: u64,
    pub text: u64,
    pub place: u64,
    pub first: u64,
    pub second: u64,
}

// A reply, and a deck beside it.
fn deck_reply(r: Reply, deck: Deck) -> DeckReply
    ensures { result ≡ deck_reply r deck }
{
    DeckReply {
        number: r.number,
        text: r.text,
        place: r.place,
        deck,
    }
}

// A reply, and two counts beside it.
fn count_reply(r: Reply, first: u64, second: u64) -> CountReply
    ensures { result ≡ count_reply r first second }
{
    CountReply {
        number: r.number,
        text: r.text,
        place: r.place,
        first,
        second,
    }
}

// A refusal, and zero counts beside it.
fn refusal(a: Refusal) -> CountReply
    ensures { result ≡ count_reply (reply_of a) 0 0 }
{
    count_reply(Reply::from(a), 0, 0)
}

// The reply to what was read: its deck, or the deck of zeros beside a refusal.
pub fn replied(read: Result<(), Refusal>, deck: Deck) -> DeckReply
    ensures { (o : Outcome Its) → ReadInto o read deck → result ≡ read_reply o }
{
    match read {
        Ok(()) => deck_reply(Reply::fine(), deck),
        Err(a) => deck_reply(Reply::from(a), decks::no_deck()),
    }
}

// Writes the deck that was read into out, or gives its refusal.
pub fn written(read: Result<(), Refusal>, deck: &Deck, out: &mut [u8]) -> CountReply
    requires { (o : Outcome Its) × Readable o × ReadInto o read deck.now }
    ensures { (o : Outcome Its) → Readable o → ReadInto o read deck.now → (result ≡ write_reply o out.old) × (out.new ≡ write_buffer o out.old) }
{
    if let Err(a) = read {
        return refusal(a);
    }
    match texts::write_deck(deck, out) {
        Ok(bytes) => count_reply(Reply::fine(), bytes as u64, 0),
        Err(a) => refusal(a),
    }
}

// Gives the cone of s in the deck that was read, or its refusal. Of the deck it takes the variables and equations: any initial states and property would do.
pub fn closed(read: Result<(), Refusal>, deck: &Deck, s: u64) -> CountReply
    requires { (o : Outcome Its) × Readable o × (inits : List ℕ) × (property : List ℕ) × ReadInto o read (record deck.now { inits = inits; property = property }) }
    ensures { (o : Outcome Its) (inits property : List ℕ) → Readable o → ReadInto o read (record deck.now { inits = inits; property = property }) → result ≡ cone_reply o s }
{
    if let Err(a) = read {
        return refusal(a);
    }
    match cones::cone(deck.vars, deck.equations.rows(), s) {
        Ok(c) => count_reply(Reply::fine(), c.set, c.size as u64),
        Err(a) => refusal(a),
    }
}

// Writes all pieces of the deck that was read into out, or gives its refusal.
pub fn reduced(read: Result<(), Refusal>, deck: &Deck, out: &mut [u8]) -> CountReply
    requires { (o : Outcome Its) × Readable o × ReadInto o read deck.now }
    ensures { (o : Outcome Its) → Readable o → ReadInto o read deck.now → (result ≡ reduce_reply o out.old) × (out.new ≡ reduce_buffer o out.old) }
{
    if let Err(a) = read {
        return refusal(a);
    }
    match pieces::reduce(deck, out) {
        Ok(p) => count_reply(Reply::fine(), p.pieces as u64, p.bytes as u64),
        Err(a) => refusal(a),
    }
}
