// The public operations: each on texts, each with a reply to every text.
#![tactic(auto)]

ghost use Rattle.std.specs.Prelude.{◌≡◌, List, ℕ};
ghost use Rattle.logic.specs.Decks.{Deck as Its};
ghost use Rattle.decks.specs.Answers.{Outcome, reply_to};
ghost use Rattle.decks.specs.Stored.{blank};
ghost use Rattle.decks.specs.Lent.{ReadInto};
ghost use Rattle.frames.specs.Read.{read_deck};
ghost use Rattle.cards.specs.Read.{read_cards};
ghost use Rattle.claims.specs.Checked.{checked as claim_answer};
ghost use Rattle.replies.specs.Replies.{read_reply, write_reply, write_buffer, reduce_reply, reduce_buffer, cone_reply};
ghost use Rattle.replies.specs.Readable.{Readable};
ghost use Rattle.exports.specs.Exported.{packed_reply, Exported};
ghost use Rattle.station.specs.Readings.{cards_readable, frames_readable};
ghost use Rattle.station.specs.Promises.{ReadsFrames, ReadsCards, WritesFrames, WritesCards, ReducesFrames, ReducesCards, FindsCone, ChecksClaim};

use decks::{Deck, Refusal, Reply};
use replies::{CountReply, DeckReply};

// A form of texts that decks are read from.
pub trait Form {
    ghost outcome: { List ℕ → Outcome Its };

    // Reads a text into a deck of zeros.
    fn read(text: &[u8], deck: &mut Deck) -> Result<(), Refusal>
        requires { deck.old ≡ blank }
        ensures { ReadInto (outcome text.now) result deck.new };

    ghost readable: { (text : List ℕ) → Readable (outcome text) };
}

// Texts of cards.
pub struct Cards;

impl Form for Cards {
    ghost outcome = { read_cards };

    ghost readable = { cards_readable };

    fn read(text: &[u8], deck: &mut Deck) -> Result<(), Refusal> {
        cardreading::read_cards(text, deck)
    }
}

// Texts of frames.
pub struct Frames;

impl Form for Frames {
    ghost outcome = { read_deck };

    ghost readable = { frames_readable };

    fn read(text: &[u8], deck: &mut Deck) -> Result<(), Refusal> {
        reading::read_deck(text, deck)
    }
}

// What is done to a deck of a form: three lines each, which one function that takes the last of them would only make longer.

// A deck of a form, read.
pub fn read<F: Form>(text: &[u8]) -> DeckReply
    ensures { result ≡ read_reply (F.outcome text.now) }
{
    let mut deck = decks::no_deck();
    let read = F::read(text, &mut deck);
    replies::replied(read, deck)
}

// A deck of a form, written as frames.
pub fn write<F: Form>(text: &[u8], out: &mut [u8]) -> CountReply
    ensures reply { result ≡ write_reply (F.outcome text.now) out.old }
    ensures buffer { out.new ≡ write_buffer (F.outcome text.now) out.old }
{
    let mut deck = decks::no_deck();
    let read = F::read(text, &mut deck);
    replies::written(read, &deck, out)
}

// A deck of a form, reduced: all pieces written.
pub fn reduce<F: Form>(text: &[u8], out: &mut [u8]) -> CountReply
    ensures reply { result ≡ reduce_reply (F.outcome text.now) out.old }
    ensures buffer { out.new ≡ reduce_buffer (F.outcome text.now) out.old }
{
    let mut deck = decks::no_deck();
    let read = F::read(text, &mut deck);
    replies::reduced(read, &deck, out)
}

// A deck of cards, read.
pub fn read_cards(text: &[u8]) -> DeckReply
    ensures { ReadsCards text.now result }
{
    read::<Cards>(text)
}

// A deck of frames, read.
pub fn read_frames(text: &[u8]) -> DeckReply
    ensures { ReadsFrames text.now result }
{
    read::<Frames>(text)
}

// A deck of cards, written as frames.
pub fn write_cards(text: &[u8], out: &mut [u8]) -> CountReply
    ensures { WritesCards text.now out.old result out.new }
{
    write::<Cards>(text, out)
}

// A deck of frames, written as frames.
pub fn write_frames(text: &[u8], out: &mut [u8]) -> CountReply
    ensures { WritesFrames text.now out.old result out.new }
{
    write::<Frames>(text, out)
}

// A deck of cards, reduced: all pieces written.
pub fn reduce_cards(text: &[u8], out: &mut [u8]) -> CountReply
    ensures { ReducesCards text.now out.old result out.new }
{
    reduce::<Cards>(text, out)
}

// A deck of frames, reduced: all pieces written.
pub fn reduce_frames(text: &[u8], out: &mut [u8]) -> CountReply
    ensures { ReducesFrames text.now out.old result out.new }
{
    reduce::<Frames>(text, out)
}

// The cone of a set in a deck of frames, and its size.
pub fn cone(text: &[u8], s: u64) -> CountReply
    ensures { FindsCone text.now s result }
{
    let mut deck = decks::no_deck();
    let read = Frames::read(text, &mut deck);
    replies::closed(read, &deck, s)
}

// A claim checked against a deck, both frames.
pub fn check<'a>(deck: &'a [u8], claim: &'a [u8]) -> Reply
    ensures { ChecksClaim deck.now claim.now result }
{
    let mut stored = decks::no_deck();
    let read = Frames::read(deck, &mut stored);
    decks::reply_to(checking::checked(read, &stored, claim))
}

// The six functions that C calls: it calls them by name, so that no type parameter can stand for two of them.

// write_cards for C: bytes and 0 are the counts.
#[unsafe(no_mangle)]
pub extern "C" fn micaplume_write_cards(text: &[u8], out: &mut [u8], counts: &mut [u64; 2]) -> u64
    ensures { Exported (write_reply (read_cards text.now) out.old) result counts.new × (out.new ≡ write_buffer (read_cards text.now) out.old) }
{
    exports::export(write_cards(text, out), counts)
}

// write_frames for C: bytes and 0 are the counts.
#[unsafe(no_mangle)]
pub extern "C" fn micaplume_write_frames(text: &[u8], out: &mut [u8], counts: &mut [u64; 2]) -> u64
    ensures { Exported (write_reply (read_deck text.now) out.old) result counts.new × (out.new ≡ write_buffer (read_deck text.now) out.old) }
{
    exports::export(write_frames(text, out), counts)
}

// reduce_cards for C: pieces and bytes are the counts.
#[unsafe(no_mangle)]
pub extern "C" fn micaplume_reduce_cards(text: &[u8], out: &mut [u8], counts: &mut [u64; 2]) -> u64
    ensures { Exported (reduce_reply (read_cards text.now) out.old) result counts.new × (out.new ≡ reduce_buffer (read_cards text.now) out.old) }
{
    exports::export(reduce_cards(text, out), counts)
}

// reduce_frames for C: pieces and bytes are the counts.
#[unsafe(no_mangle)]
pub extern "C" fn micaplume_reduce_frames(text: &[u8], out: &mut [u8], counts: &mut [u64; 2]) -> u64
    ensures { Exported (reduce_reply (read_deck text.now) out.old) result counts.new × (out.new ≡ reduce_buffer (read_deck text.now) out.old) }
{
    exports::export(reduce_frames(text, out), counts)
}

// cone for C: the set and its size are the counts.
#[unsafe(no_mangle)]
pub extern "C" fn micaplume_cone(deck: &[u8], set: u64, counts: &mut [u64; 2]) -> u64
    ensures { Exported (cone_reply (read_deck deck.now) set) result counts.new }
{
    exports::export(cone(deck, set), counts)
}

// check for C.
#[unsafe(no_mangle)]
pub extern "C" fn micaplume_check<'a>(deck: &'a [u8], claim: &'a [u8]) -> u64
    ensures { result ≡ packed_reply (reply_to (claim_answer deck.now claim.now)) }
{
    let r = check(deck, claim);
    exports::packed(r.number, r.text, r.place)
}
