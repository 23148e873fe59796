// The lines of a deck, each judged and then stored.
#![tactic(auto)]

ghost use Rattle.std.specs.Prelude.{◌≡◌, ◌+◌, ◌*◌, ◌^◌, ◌<◌, ◌≤◌, length, drop, replicate, IfOk, OnOk, OnErr};
ghost use Rattle.lists.specs.Lists.{padded};
ghost use Rattle.logic.specs.Expressions.{Expr};
ghost use Rattle.logic.specs.Decks.{base};
ghost use Rattle.decks.specs.Lent.{Hold};
ghost use Rattle.codes.specs.Steps.{Kept};
ghost use Rattle.frames.specs.Written.{set_bytes};
ghost use Rattle.frames.specs.Read.{Sofar, begun, whole_number, whole_expr, set_line, init_line, with_equation, equation_line, property_line};
ghost use Rattle.decklines.specs.Held.{said_as, written_of, held_of, line_of, with_vars, with_vars_alone, with_inits, with_equations, with_property, Came, Room};

use codes::{Stop, Written};
use decks::{Deck, Refusal};

// The text at fault.
const DECK_TEXT: u64 = 1;

// Which frames are due.
#[derive(Clone, Copy, PartialEq, Eq)]
pub enum Due {
    Set,
    Init,
    Any,
    Equation,
    Count,
    Nothing,
}

// What the lines of a deck so far came to, but for what stands in the deck.
#[derive(Clone, Copy)]
pub struct Held {
    pub due: Due,
    pub used: usize,
    pub last: u8,
    pub covered: u64,
}

// Nothing is held: as the definition begins, which a derived Default would not say.
pub fn nothing() -> Held
    ensures { result ≡ held_of begun }
{
    Held {
        due: Due::Set,
        used: 0,
        last: 0,
        covered: 0,
    }
}

// The set or state that fills line n behind its kind.
fn set_read(line: &[u8], n: u64) -> Result<u64, Refusal>
    ensures { result ≡ said_as (λ x. x) (whole_number 1 n set_bytes (drop 2 line.now)) }
{
    lines::number_at(line, 2, 8).ok_or(Refusal::BadFrame(DECK_TEXT, n))
}

// 01: the variable set alone; no initial state, equation or node of the property stands behind it.
pub fn set_alone(line: &[u8], n: u64, deck: &mut Deck) -> Result<Held, Refusal>
    ensures rest { deck.new ≡ record deck.old { vars = deck.new.vars; initials = deck.new.initials; equations = record deck.old.equations { count = deck.new.equations.count }; size = deck.new.size } }
    ensures none { OnOk result ((deck.new.initials ≡ 0) × (deck.new.equations.count ≡ 0) × (deck.new.size ≡ 0)) }
    ensures kept { OnErr result (deck.new ≡ deck.old) }
    ensures came { (s : Sofar) → Came (with_vars_alone deck.old) (set_line n (drop 2 line.now) s.deck) result deck.new }
{
    deck.vars = set_read(line, n)?;
    deck.initials = 0;
    deck.equations.count = 0;
    deck.size = 0;
    Ok(Held {
        due: Due::Init,
        ..nothing()
    })
}

// 01: the variable set; what else the deck lent holds and counts stays.
pub fn set_line(line: &[u8], n: u64, deck: &mut Deck) -> Result<Held, Refusal>
    ensures rest { deck.new ≡ record deck.old { vars = deck.new.vars } }
    ensures kept { OnErr result (deck.new ≡ deck.old) }
    ensures came { (s : Sofar) → Came (with_vars deck.old) (set_line n (drop 2 line.now) s.deck) result deck.new }
{
    let initials = deck.initials;
    let count = deck.equations.count;
    let size = deck.size;
    let held = set_alone(line, n, deck)?;
    deck.initials = initials;
    deck.equations.count = count;
    deck.size = size;
    Ok(held)
}

// The expression that fills line n from a place on; its nodes are kept from a place of the lent row on, as far as the row has room.
pub fn expression_line(
    line: &[u8],
    at: usize,
    n: u64,
    out: &mut [u16],
    used: usize,
) -> Result<Written, Refusal>
    requires { (at ≤ length line.now) × (used < 2 ^ 63) }
    ensures { (result ≡ said_as written_of (whole_expr n (drop at line.now))) × IfOk result (λ e. (at + 2 * e.nodes ≤ length line.now) × Kept line.now at used e.nodes out.old out.new) × (length out.new ≡ length out.old) }
{
    match codes::expression(line, at, decks::LEVELS, out, used) {
        Ok(e) if e.next == line.len() => Ok(e.written),
        Ok(_) => Err(Refusal::BadFrame(DECK_TEXT, n)),
        Err(Stop::Wrong(_)) => Err(Refusal::BadFrame(DECK_TEXT, n)),
        Err(Stop::Deep(_)) => Err(Refusal::TooDeep(n)),
    }
}

// 04: the property.
pub fn property_line(line: &[u8], n: u64, h: Held, deck: &mut Deck) -> Result<Held, Refusal>
    requires { 2 ≤ length line.now }
    ensures rest { deck.new ≡ record deck.old { property = deck.new.property; size = deck.new.size } }
    ensures kept { OnErr result (deck.new.size ≡ deck.old.size) }
    ensures came { (s : Sofar) → h ≡ held_of s → deck.old.vars ≡ s.deck.vars → (result ≡ line_of (property_line n (drop 2 line.now) s.deck)) × (deck.old.property ≡ replicate base.property_nodes 0 → Came (with_property deck.old) (property_line n (drop 2 line.now) s.deck) result deck.new) }
{
    let e = expression_line(line, 2, n, &mut deck.property, 0)?;
    if !sets::subset(e.vars, deck.vars) {
        return Err(Refusal::Outside(DECK_TEXT, n));
    }
    if e.nodes > decks::PROPERTY_NODES {
        return Err(Refusal::ManyNodes(n));
    }
    deck.size = e.nodes;
    Ok(Held {
        due: Due::Count,
        ..h
    })
}

// 02: an initial state.
pub fn init_line(line: &[u8], n: u64, h: Held, deck: &mut Deck) -> Result<Held, Refusal>
    requires { deck.old.initials ≤ base.initials }
    ensures rest { deck.new ≡ record deck.old { inits = deck.new.inits; initials = deck.new.initials } }
    ensures kept { OnErr result (deck.new.initials ≡ deck.old.initials) }
    ensures within { deck.new.initials ≤ base.initials }
    ensures came { (s : Sofar) → h ≡ held_of s → deck.old.vars ≡ s.deck.vars → deck.old.inits ≡ padded base.initials s.deck.inits → deck.old.initials ≡ length s.deck.inits → Came (with_inits deck.old) (init_line n (drop 2 line.now) s.deck) result deck.new }
{
    let x = set_read(line, n)?;
    if decks::stands_in(deck.initial_states(), x) {
        return Err(Refusal::BadFrame(DECK_TEXT, n));
    }
    if !sets::subset(x, deck.vars) {
        return Err(Refusal::Outside(DECK_TEXT, n));
    }
    if deck.initials + 1 > decks::INITIALS {
        return Err(Refusal::ManyInitials(n));
    }
    deck.inits[deck.initials] = x;
    deck.initials += 1;
    Ok(Held { due: Due::Any, ..h })
}

// 03 judged, with its variable and its expression: 9, 10, 13 and 14.
fn equation_judged(v: u8, e: Written, n: u64, h: Held, deck: &Deck) -> Result<Held, Refusal>
    requires { (v < base.variables) × (e.nodes < 2 ^ 63) × (h.used ≤ base.equation_nodes) × (deck.now.equations.count ≤ base.equations) }
    ensures { ((s : Sofar) (x : Expr) → h ≡ held_of s → deck.now.vars ≡ s.deck.vars → deck.now.equations.count ≡ length s.deck.equations → e ≡ written_of x → result ≡ line_of (with_equation n s.deck (record { left = v; right = x }))) × IfOk result (λ r. Room v h e deck.now r) }
{
    if !sets::member(deck.vars, usize::from(v)) {
        return Err(Refusal::Outside(DECK_TEXT, n));
    }
    if !sets::subset(e.vars, deck.vars) {
        return Err(Refusal::Outside(DECK_TEXT, n));
    }
    if e.temporal {
        return Err(Refusal::Temporal(n));
    }
    if deck.equations.count + 1 > decks::EQUATIONS {
        return Err(Refusal::ManyEquations(n));
    }
    if h.used + e.nodes > decks::EQUATION_NODES {
        return Err(Refusal::ManyNodes(n));
    }
    Ok(Held {
        due: Due::Equation,
        used: h.used + e.nodes,
        last: v,
        covered: sets::union(h.covered, sets::variable(usize::from(v))),
    })
}

// 03: its variable, not below the one before it, then its expression, whose nodes are stored; judged, and then its variable and its end stored.
pub fn equation_line(line: &[u8], n: u64, h: Held, deck: &mut Deck) -> Result<Held, Refusal>
    requires { (h.used ≤ base.equation_nodes) × (deck.old.equations.count ≤ base.equations) }
    ensures rest { deck.new ≡ record deck.old { equations = deck.new.equations } }
    ensures kept { OnErr result (deck.new.equations.count ≡ deck.old.equations.count) }
    ensures came { (s : Sofar) → h ≡ held_of s → deck.old.vars ≡ s.deck.vars → Hold s.deck.equations deck.old.equations → Came (with_equations deck.old) (equation_line n (drop 2 line.now) s.deck) result deck.new }
{
    let Some(v) = lines::pair_at(line, 2) else {
        return Err(Refusal::BadFrame(DECK_TEXT, n));
    };
    if usize::from(v) >= decks::VARIABLES {
        return Err(Refusal::BadFrame(DECK_TEXT, n));
    }
    if v < h.last {
        return Err(Refusal::BadFrame(DECK_TEXT, n));
    }
    let e = expression_line(line, 4, n, &mut deck.equations.nodes, h.used)?;
    let held = equation_judged(v, e, n, h, deck)?;
    let i = deck.equations.count;
    deck.equations.lefts[i] = u16::from(v);
    deck.equations.ends[i] = held.used as u16;
    deck.equations.count = i + 1;
    Ok(held)
}

#[cfg(test)]
mod tests {
    use super::*;
    use std::test::Fail;

    // The set of RULES 2.3's deck, in a deck that counts already, as no reader lends one.
    #[test]
    fn a_set_leaves_what_is_counted(rt: HostRuntime) -> Result<(), Fail> {
        let mut deck = decks::no_deck();
        deck.initials = 3;
        deck.equations.count = 5;
        deck.size = 7;
        let held = set_line(b"01000000000000000F", 1, &mut deck)?;
        assert!(rt; held.due == Due::Init, "what is due");
        let refused = set_line(b"01000000000000000G", 9, &mut deck).err();
        assert_eq!(rt; refused, Some(Refusal::BadFrame(1, 9)));
        assert_eq!(rt; deck.vars, 15);
        assert_eq!(rt; deck.initials, 3);
        assert_eq!(rt; deck.equations.count, 5);
        assert_eq!(rt; deck.size, 7);
        Ok(())
    }
}
