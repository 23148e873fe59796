// All reduced decks of a deck, written one behind the other.
#![tactic(auto)]

ghost use Rattle.std.specs.Prelude.{◌≡◌, List, ◌≤◌, length, take};
ghost use Rattle.lists.specs.Lists.{splice};
ghost use Rattle.logic.specs.Expressions.{Expr};
ghost use Rattle.logic.specs.Decks.{Deck as Its, Accepted, base};
ghost use Rattle.logic.specs.Pieces.{piece};
ghost use Rattle.decks.specs.Stored.{stored};
ghost use Rattle.frames.specs.Written.{deck_frames};
ghost use Rattle.pieces.specs.Laid.{Placed, Bound, Keeps};
ghost use Rattle.pieces.specs.Reduced.{piece_bytes, reduced, reduced_into};

use conjuncts::Span;
use decks::{Deck, Refusal};

// A property has at most 128 nodes, and of the conjuncts each but one has an `&` beside it.
const CONJUNCTS: usize = decks::PROPERTY_NODES / 2;

// How many pieces a reduction wrote, and in how many bytes.
#[derive(Clone, Copy)]
pub struct Reduced {
    pub pieces: usize,
    pub bytes: usize,
}

// What a piece keeps of its deck: the cone of its conjunct as variables, and the initial states seen on it.
// No heap: there is room for as many states as a deck may have.
#[derive(Drop)]
struct Kept {
    cone: u64,
    states: [u64; decks::INITIALS],
    count: usize,
}

impl Kept {
    fn states(&self) -> &[u64]
        requires { self.now.count ≤ base.initials }
        ensures { result.now ≡ take self.now.count self.now.states }
    {
        &self.states[..self.count]
    }
}

// What the piece of the conjunct at this span keeps of a deck whose equations have this table.
fn kept_by(deck: &Deck, deps: &[u64], span: Span) -> Kept
    requires { (D : Its) × (e : Expr) × Placed D e deck.now deps.now span }
    ensures { (D : Its) (e : Expr) → Placed D e deck.now deps.now span → Keeps D e result }
{
    let written = terms::written_in(deck.property_nodes(), span.from, span.to);
    let cone = cones::closing(deps, written);
    let mut states = [0; decks::INITIALS];
    let count = conjuncts::project(deck.initial_states(), cone, &mut states);
    Kept {
        cone,
        states,
        count,
    }
}

// The bytes of that piece.
fn piece_size(deck: &Deck, deps: &[u64], span: Span) -> usize
    requires { (D : Its) × (e : Expr) × Placed D e deck.now deps.now span }
    ensures { (D : Its) (e : Expr) → Placed D e deck.now deps.now span → result ≡ length (deck_frames (piece D e)) }
{
    let kept = kept_by(deck, deps, span);
    let conjunct = &deck.property_nodes()[span.from..span.to];
    texts::frames_size(kept.cone, kept.states(), deck.equations.rows(), conjunct)
}

// The piece into a buffer, and how many bytes it filled.
fn write_piece(deck: &Deck, deps: &[u64], span: Span, out: &mut [u8]) -> usize
    requires { (D : Its) × (e : Expr) × Placed D e deck.now deps.now span × (length (deck_frames (piece D e)) ≤ length out.old) }
    ensures { (D : Its) (e : Expr) → Placed D e deck.now deps.now span → (result ≡ length (deck_frames (piece D e))) × (out.new ≡ splice 0 (deck_frames (piece D e)) out.old) }
{
    let kept = kept_by(deck, deps, span);
    let conjunct = &deck.property_nodes()[span.from..span.to];
    texts::write_frames(
        kept.cone,
        kept.states(),
        deck.equations.rows(),
        conjunct,
        out,
    )
}

// The bytes of all pieces.
fn pieces_size(deck: &Deck, deps: &[u64], spans: &[Span]) -> usize
    requires { (D : Its) × Bound D deck.now deps.now spans.now }
    ensures { (D : Its) → Bound D deck.now deps.now spans.now → result ≡ length (piece_bytes D) }
{
    let mut n = 0;
    for span in spans {
        n += piece_size(deck, deps, *span);
    }
    n
}

// All pieces, each into the part of the buffer that the earlier ones left free, and their bytes.
fn write_pieces(deck: &Deck, deps: &[u64], spans: &[Span], out: &mut [u8]) -> usize
    requires { (D : Its) × Bound D deck.now deps.now spans.now × (length (piece_bytes D) ≤ length out.old) }
    ensures { (D : Its) → Bound D deck.now deps.now spans.now → length (piece_bytes D) ≤ length out.old → (result ≡ length (piece_bytes D)) × (out.new ≡ splice 0 (piece_bytes D) out.old) }
{
    let mut used = 0;
    for span in spans {
        used += write_piece(deck, deps, *span, &mut out[used..]);
    }
    used
}

// All pieces of a deck into a buffer; 17 with the bytes of all of them, and no byte changed, where it has no room.
pub fn reduce(deck: &Deck, out: &mut [u8]) -> Result<Reduced, Refusal>
    requires { (D : Its) × Accepted base D × (deck.now ≡ stored D) }
    ensures { (D : Its) → Accepted base D → deck.now ≡ stored D → (result ≡ reduced D (length out.old)) × (out.new ≡ reduced_into D out.old) }
{
    let mut deps = [0; decks::VARIABLES];
    cones::dependencies(deck.equations.rows(), &mut deps);
    let conjuncts = conjuncts::split_property::<CONJUNCTS>(deck.property_nodes());
    let spans = conjuncts.as_slice();
    let needed = pieces_size(deck, &deps, spans);
    if out.len() < needed {
        return Err(Refusal::NoRoom(needed as u64));
    }
    let n = write_pieces(deck, &deps, spans, out);
    Ok(Reduced {
        pieces: spans.len(),
        bytes: n,
    })
}
