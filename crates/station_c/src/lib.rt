// The public operations for C: a static library of six functions, each with the contract of the function of `station` that it calls.
#![tactic(auto)]

ghost use Rattle.std.specs.Prelude.{◌≡◌};
ghost use Rattle.decks.specs.Answers.{reply_to};
ghost use Rattle.frames.specs.Read.{read_deck};
ghost use Rattle.cards.specs.Read.{read_cards};
ghost use Rattle.claims.specs.Checked.{checked as claim_answer};
ghost use Rattle.replies.specs.Replies.{write_reply, write_buffer, reduce_reply, reduce_buffer, cone_reply};
ghost use Rattle.exports.specs.Exported.{packed_reply, Exported};

// A deck of cards, written as frames: bytes and 0 are the counts.
#[unsafe(no_mangle)]
pub extern "C" fn micaplume_write_cards(text: &[u8], out: &mut [u8], counts: &mut [u64; 2]) -> u64
    ensures { Exported (write_reply (read_cards text.now) out.old) result counts.new × (out.new ≡ write_buffer (read_cards text.now) out.old) }
{
    station::micaplume_write_cards(text, out, counts)
}

// A deck of frames, written as frames: bytes and 0 are the counts.
#[unsafe(no_mangle)]
pub extern "C" fn micaplume_write_frames(text: &[u8], out: &mut [u8], counts: &mut [u64; 2]) -> u64
    ensures { Exported (write_reply (read_deck text.now) out.old) result counts.new × (out.new ≡ write_buffer (read_deck text.now) out.old) }
{
    station::micaplume_write_frames(text, out, counts)
}

// A deck of cards, reduced: pieces and bytes are the counts.
#[unsafe(no_mangle)]
pub extern "C" fn micaplume_reduce_cards(text: &[u8], out: &mut [u8], counts: &mut [u64; 2]) -> u64
    ensures { Exported (reduce_reply (read_cards text.now) out.old) result counts.new × (out.new ≡ reduce_buffer (read_cards text.now) out.old) }
{
    station::micaplume_reduce_cards(text, out, counts)
}

// A deck of frames, reduced: pieces and bytes are the counts.
#[unsafe(no_mangle)]
pub extern "C" fn micaplume_reduce_frames(text: &[u8], out: &mut [u8], counts: &mut [u64; 2]) -> u64
    ensures { Exported (reduce_reply (read_deck text.now) out.old) result counts.new × (out.new ≡ reduce_buffer (read_deck text.now) out.old) }
{
    station::micaplume_reduce_frames(text, out, counts)
}

// The cone of a set in a deck of frames: the set and its size are the counts.
#[unsafe(no_mangle)]
pub extern "C" fn micaplume_cone(deck: &[u8], set: u64, counts: &mut [u64; 2]) -> u64
    ensures { Exported (cone_reply (read_deck deck.now) set) result counts.new }
{
    station::micaplume_cone(deck, set, counts)
}

// A claim checked against a deck, both frames.
#[unsafe(no_mangle)]
pub extern "C" fn micaplume_check<'a>(deck: &'a [u8], claim: &'a [u8]) -> u64
    ensures { result ≡ packed_reply (reply_to (claim_answer deck.now claim.now)) }
{
    station::micaplume_check(deck, claim)
}
