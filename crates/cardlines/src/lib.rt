// The statements of a deck of cards, each judged and then stored.
#![tactic(auto)]

ghost use Rattle.std.specs.Prelude.{◌≡◌, ◌<◌, ◌≤◌, ◌+◌, IfOk, OnOk, OnErr, length, set};
ghost use Rattle.logic.specs.Expressions.{Expr, Narrow, code};
ghost use Rattle.logic.specs.Decks.{base};
ghost use Rattle.lists.specs.Lists.{chosen, padded, stands};
ghost use Rattle.decks.specs.Lent.{Hold};
ghost use Rattle.cards.specs.Statement.{inked};
ghost use Rattle.cards.specs.Typed.{Typed};
ghost use Rattle.cards.specs.Read.{Sofar, begun, due_statement, equation_or_prop, equation_statement, prop_statement, init_statement, with_equation};
ghost use Rattle.grammar.specs.Ahead.{ahead};
ghost use Rattle.phrases.specs.Phrases.{refusal_of};
ghost use Rattle.cardlines.specs.Held.{held_of, Few, Small, Holds, Came, VarsCame, EndCame, kept, within_all, EquationCame, PropCame};

use decks::{Deck, Equations, Refusal};

// The most nodes that the expression of a statement may have: one for each of its characters.
pub const NODES: usize = 1320;

// Which statements are due.
#[derive(Clone, Copy, PartialEq, Eq)]
pub enum Due {
    Vars,
    Init,
    Any,
    Equation,
    End,
    Nothing,
}

// What the statements so far came to, beside what stands in the deck: what is due, the number of variables, and how many initial states were typed.
#[derive(Clone, Copy)]
pub struct Held {
    pub due: Due,
    pub count: usize,
    pub typed: usize,
}

// Before the first statement.
pub fn nothing() -> Held
    ensures { result ≡ held_of begun }
{
    Held {
        due: Due::Vars,
        count: 0,
        typed: 0,
    }
}

// `VARS` n: the number of variables.
fn vars_statement(chars: &[u8], n: u64) -> Result<usize, Refusal>
    ensures { VarsCame n (ahead chars.now 0) result }
{
    let at = grammar::read_word(chars, 0, b"VARS").map_err(|_| Refusal::NotDue(n))?;
    let v = grammar::read_number(chars, at).map_err(|_| Refusal::NotDue(n))?;
    let count = usize::from(v.value);
    if decks::VARIABLES < count || grammar::next_ink(chars, v.next).is_some() {
        return Err(Refusal::NotDue(n));
    }
    Ok(count)
}

// `END`.
fn end_statement(chars: &[u8], n: u64) -> Result<(), Refusal>
    ensures { EndCame n (ahead chars.now 0) result }
{
    let at = grammar::read_word(chars, 0, b"END").map_err(|_| Refusal::NotDue(n))?;
    if grammar::next_ink(chars, at).is_some() {
        return Err(Refusal::NotDue(n));
    }
    Ok(())
}

// An initial state behind those kept, if none of them equals it.
fn keep(state: u64, deck: &mut Deck)
    requires { deck.old.initials < base.initials }
    ensures { deck.new ≡ kept state deck.old }
{
    if decks::stands_in(deck.initial_states(), state) {
        return;
    }
    deck.inits[deck.initials] = state;
    deck.initials += 1;
}

// Behind `INIT`: an initial state, one more that was typed. An equal one that was kept before is kept once.
fn init_statement(
    chars: &[u8],
    at: usize,
    n: u64,
    h: Held,
    deck: &mut Deck,
) -> Result<Held, Refusal>
    requires { (at ≤ length chars.now) × Small h deck.old }
    ensures small { IfOk result (λ k. Small k deck.new) }
    ensures came { (s : Sofar) → Holds s h deck.old → Came (init_statement n (ahead chars.now at) s.typed) result deck.new }
    ensures vars { deck.new.vars ≡ deck.old.vars }
    ensures kept { OnErr result (deck.new ≡ deck.old) }
{
    let state = grammar::read_binary(chars, at, h.count).map_err(|_| Refusal::NotDue(n))?;
    if decks::INITIALS <= h.typed {
        return Err(Refusal::ManyInitials(n));
    }
    keep(state, deck);
    Ok(Held {
        due: Due::Any,
        typed: h.typed + 1,
        ..h
    })
}

// The answer for a statement of card n whose expression stopped so.
fn refusal(n: u64, stop: phrases::Stop) -> Refusal
    ensures { result ≡ refusal_of n stop }
{
    match stop {
        phrases::Stop::Wrong(_) => Refusal::NotDue(n),
        phrases::Stop::Deep(_) => Refusal::TooDeep(n),
    }
}

// Whether the variables among the nodes are all below a number.
fn all_within(nodes: &[u16], count: usize) -> bool
    ensures { result ≡ within_all count nodes.now }
{
    nodes.iter().all(|node| usize::from(*node) < count || !terms::is_variable(*node))
}

// The equation of a variable and these nodes: 9, 10, 13 and 14; then it is stored behind the others.
fn add_equation(
    n: u64,
    count: usize,
    left: u16,
    nodes: &[u16],
    equations: &mut Equations,
) -> Result<(), Refusal>
    requires { Few equations.old }
    ensures few { OnOk result (Few equations.new) }
    ensures came { (t : Typed) (x : Expr) → count ≡ t.count → Hold t.equations equations.old → Narrow x → nodes.now ≡ code x → EquationCame (with_equation n t (record { left = left; right = x })) t result equations.new }
    ensures kept { OnErr result (equations.new ≡ equations.old) }
{
    if count <= usize::from(left) || !all_within(nodes, count) {
        return Err(Refusal::Outside(1, n));
    }
    if terms::has_temporal(nodes, 0, nodes.len()) {
        return Err(Refusal::Temporal(n));
    }
    if decks::EQUATIONS <= equations.count {
        return Err(Refusal::ManyEquations(n));
    }
    if decks::EQUATION_NODES < sorting::used(equations) + nodes.len() {
        return Err(Refusal::ManyNodes(n));
    }
    sorting::put_equation(left, nodes, equations);
    Ok(())
}

// Behind the `V` of `Vi=`: the equation.
fn equation_statement(
    chars: &[u8],
    at: usize,
    n: u64,
    count: usize,
    scratch: &mut [u16; NODES],
    equations: &mut Equations,
) -> Result<(), Refusal>
    requires { (at ≤ length chars.now) × (length chars.now ≤ 1320) × Few equations.old }
    ensures few { OnOk result (Few equations.new) }
    ensures came { (t : Typed) → count ≡ t.count → Hold t.equations equations.old → EquationCame (equation_statement n (ahead chars.now at) t) t result equations.new }
    ensures kept { OnErr result (equations.new ≡ equations.old) }
{
    let v = grammar::read_number(chars, at).map_err(|_| Refusal::NotDue(n))?;
    let from = grammar::read_word(chars, v.next, b"=").map_err(|_| Refusal::NotDue(n))?;
    let used = phrases::whole_expression(chars, from, scratch).map_err(|stop| refusal(n, stop))?;
    add_equation(n, count, v.value, &scratch[..used], equations)
}

// The property's nodes, and zeros behind them.
fn put_property(nodes: &[u16], property: &mut [u16; decks::PROPERTY_NODES])
    requires { length nodes.now ≤ base.property_nodes }
    ensures { property.new ≡ padded base.property_nodes nodes.now }
{
    let count = nodes.len();
    sorting::copy(nodes, &mut property[..count]);
    property[count..].fill(0);
}

// Behind `PROP`: the property, and how many nodes it has; 9, then 14.
fn prop_statement(
    chars: &[u8],
    at: usize,
    n: u64,
    count: usize,
    scratch: &mut [u16; NODES],
    property: &mut [u16; decks::PROPERTY_NODES],
) -> Result<usize, Refusal>
    requires { (at ≤ length chars.now) × (length chars.now ≤ 1320) }
    ensures came { (t : Typed) → count ≡ t.count → PropCame (prop_statement n (ahead chars.now at) t) t result property.new }
    ensures kept { OnErr result (property.new ≡ property.old) }
{
    let used = phrases::whole_expression(chars, at, scratch).map_err(|stop| refusal(n, stop))?;
    let nodes = &scratch[..used];
    if !all_within(nodes, count) {
        return Err(Refusal::Outside(1, n));
    }
    if decks::PROPERTY_NODES < used {
        return Err(Refusal::ManyNodes(n));
    }
    put_property(nodes, property);
    Ok(used)
}

// An equation or the property.
fn equation_or_prop(
    chars: &[u8],
    n: u64,
    h: Held,
    scratch: &mut [u16; NODES],
    deck: &mut Deck,
) -> Result<Held, Refusal>
    requires { (length chars.now ≤ 1320) × Small h deck.old }
    ensures small { IfOk result (λ k. Small k deck.new) }
    ensures came { (s : Sofar) → Holds s h deck.old → Came (equation_or_prop n (ahead chars.now 0) s.typed) result deck.new }
    ensures vars { deck.new.vars ≡ deck.old.vars }
    ensures kept { OnErr result (deck.new ≡ deck.old) }
{
    if let Ok(at) = grammar::read_word(chars, 0, b"V") {
        equation_statement(chars, at, n, h.count, scratch, &mut deck.equations)?;
        return Ok(Held {
            due: Due::Equation,
            ..h
        });
    }
    let at = grammar::read_word(chars, 0, b"PROP").map_err(|_| Refusal::NotDue(n))?;
    deck.size = prop_statement(chars, at, n, h.count, scratch, &mut deck.property)?;
    Ok(Held { due: Due::End, ..h })
}

// The statement of card n, where the one that is due may stand. A refusal leaves the deck as it was. Characters and card go on as two: of those that take both, half need no more
// of a statement, and a struct of the two would be unpacked at once.
pub fn statement_read(
    chars: &[u8],
    n: u64,
    h: Held,
    scratch: &mut [u16; NODES],
    deck: &mut Deck,
) -> Result<Held, Refusal>
    requires { (length chars.now ≤ 1320) × Small h deck.old }
    ensures small { IfOk result (λ k. Small k deck.new) }
    ensures came { (s : Sofar) → Holds s h deck.old → Came (due_statement s.due n (inked chars.now) s.typed) result deck.new }
    ensures vars { deck.new.vars ≡ deck.old.vars }
    ensures kept { OnErr result (deck.new ≡ deck.old) }
{
    match h.due {
        Due::Vars => {
            let count = vars_statement(chars, n)?;
            Ok(Held {
                due: Due::Init,
                count,
                ..h
            })
        }
        Due::Init => {
            let at = grammar::read_word(chars, 0, b"INIT").map_err(|_| Refusal::NotDue(n))?;
            init_statement(chars, at, n, h, deck)
        }
        Due::Any => match grammar::read_word(chars, 0, b"INIT") {
            Ok(at) => init_statement(chars, at, n, h, deck),
            Err(_) => equation_or_prop(chars, n, h, scratch, deck),
        },
        Due::Equation => equation_or_prop(chars, n, h, scratch, deck),
        Due::End => {
            end_statement(chars, n)?;
            Ok(Held {
                due: Due::Nothing,
                ..h
            })
        }
        Due::Nothing => Err(Refusal::NotDue(n)),
    }
}
