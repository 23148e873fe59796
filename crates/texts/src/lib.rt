// Decks, pieces and claims written as texts of frames.
#![tactic(auto)]

ghost use Rattle.std.specs.Prelude.{◌≡◌, List, ◌++◌, ◌+◌, ◌*◌, ◌≤◌, length};
ghost use Rattle.lists.specs.Lists.{splice};
ghost use Rattle.logic.specs.Expressions.{Expr};
ghost use Rattle.logic.specs.Decks.{Equation, Deck as Its, Accepted, base};
ghost use Rattle.logic.specs.Meaning.{Sized};
ghost use Rattle.decks.specs.Stored.{stored};
ghost use Rattle.frames.specs.Hex.{pairs};
ghost use Rattle.frames.specs.Written.{set_bytes, set_kind, init_kind, property_kind, count_kind, node_pairs, frame, state_frames, deck_frames, claim_frames};
ghost use Rattle.writing.specs.Parts.{Nodes};
ghost use Rattle.texts.specs.Texts.{deck_written, claim_written};
ghost use Rattle.texts.specs.Lent.{Lent, frames_of, claim_of};

use decks::{Deck, Refusal, Rows};

// 01 and the 02s, and their length.
pub fn put_head(out: &mut [u8], vars: u64, inits: &[u64]) -> usize
    requires { 19 * length inits.now + 19 ≤ length out.old }
    ensures { (result ≡ 19 * length inits.now + 19) × (out.new ≡ splice 0 (frame set_kind (pairs set_bytes vars) ++ state_frames init_kind inits.now) out.old) }
{
    let first = writing::put_number_frame(out, 1, 8, vars);
    let n = writing::put_states(&mut out[first..], 2, inits);
    first + n
}

// 04 and 05, and their length.
pub fn put_tail(out: &mut [u8], property: &[u16], frames: usize) -> usize
    requires { Nodes property.now × (2 * length property.now + 10 ≤ length out.old) }
    ensures { (result ≡ 2 * length property.now + 10) × (out.new ≡ splice 0 (frame property_kind (node_pairs property.now) ++ frame count_kind (pairs 2 frames)) out.old) }
{
    writing::put_byte(out, 4);
    let n = writing::put_line(&mut out[2..], property);
    let at = n + 2;
    let last = writing::put_number_frame(&mut out[at..], 5, 2, frames as u64);
    at + last
}

// The deck of a set's equations, with these initial states and this property, and its length.
pub fn write_frames(
    vars: u64,
    inits: &[u64],
    equations: Rows,
    property: &[u16],
    out: &mut [u8],
) -> usize
    requires { (qs : List Equation) × (e : Expr) × Lent qs e inits.now equations property.now × (length (frames_of vars inits.now qs e) ≤ length out.old) }
    ensures { (qs : List Equation) (e : Expr) → Lent qs e inits.now equations.entry property.now → (result ≡ length (frames_of vars inits.now qs e)) × (out.new ≡ splice 0 (frames_of vars inits.now qs e) out.old) }
{
    let n = equations::count_of(vars, equations);
    let head = put_head(out, vars, inits);
    let middle = equations::put_equations(&mut out[head..], vars, equations);
    let used = head + middle;
    let last = put_tail(&mut out[used..], property, inits.len() + n + 2);
    used + last
}

// The length of that deck.
pub fn frames_size(vars: u64, inits: &[u64], equations: Rows, property: &[u16]) -> usize
    requires { (qs : List Equation) × (e : Expr) × Lent qs e inits.now equations property.now }
    ensures { (qs : List Equation) (e : Expr) → Lent qs e inits.now equations.entry property.now → result ≡ length (frames_of vars inits.now qs e) }
{
    let n = equations::equations_size(vars, equations);
    19 * inits.len() + 19 + n + (2 * property.len() + 10)
}

// The bytes of a deck's frames, from its counts: where the nodes of the last equation end, there end those of all.
fn deck_size(deck: &Deck) -> usize
    requires { (D : Its) × Accepted base D × (deck.now ≡ stored D) }
    ensures { (D : Its) → Accepted base D → deck.now ≡ stored D → result ≡ length (deck_frames D) }
{
    let ends = &deck.equations.ends[..deck.equations.count];
    let nodes = usize::from(ends.last().copied().unwrap_or(0));
    19 * deck.initials + 5 * ends.len() + 2 * (nodes + deck.size) + 29
}

// A deck into a buffer, and its length; 17 with the bytes needed, and no byte changed, where it has no room.
pub fn write_deck(deck: &Deck, out: &mut [u8]) -> Result<usize, Refusal>
    requires { (D : Its) × Accepted base D × (deck.now ≡ stored D) }
    ensures { (D : Its) → Accepted base D → deck.now ≡ stored D → (result ≡ (deck_written D out.old).report) × (out.new ≡ (deck_written D out.old).buffer) }
{
    let needed = deck_size(deck);
    if out.len() < needed {
        return Err(Refusal::NoRoom(needed as u64));
    }
    Ok(write_frames(
        deck.vars,
        deck.initial_states(),
        deck.equations.rows(),
        deck.property_nodes(),
        out,
    ))
}

// The frames of a claim, and their length.
pub fn put_claim(p: usize, c: usize, states: &[u64], out: &mut [u8]) -> usize
    requires { (p + c ≤ base.states) × (p + c ≤ length states.now) × (19 * (p + c) + 18 ≤ length out.old) }
    ensures { (result ≡ 19 * (p + c) + 18) × (out.new ≡ splice 0 (claim_frames (claim_of p c states.now)) out.old) }
{
    let count = p + c;
    let head = writing::put_number_frame(out, 17, 4, (p * 65536 + c) as u64);
    let middle = writing::put_states(&mut out[head..], 18, &states[..count]);
    let used = head + middle;
    let last = writing::put_number_frame(&mut out[used..], 21, 2, (count + 1) as u64);
    used + last
}

// A claim into a buffer, and its length; 17 with the bytes needed, and no byte changed, where it has no room.
pub fn write_claim(p: usize, c: usize, states: &[u64], out: &mut [u8]) -> Result<usize, Refusal>
    requires { Sized base (claim_of p c states.now) }
    ensures { (result ≡ (claim_written (claim_of p c states.now) out.old).report) × (out.new ≡ (claim_written (claim_of p c states.now) out.old).buffer) }
{
    let size = 19 * (p + c) + 18;
    if out.len() < size {
        return Err(Refusal::NoRoom(size as u64));
    }
    Ok(put_claim(p, c, states, out))
}
