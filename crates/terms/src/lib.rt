// Expressions in memory: nodes in prefix order.
#![tactic(auto)]

ghost use Rattle.std.specs.Prelude.{◌≡◌, ◌+◌, ◌<◌, eqb, length, drop};
ghost use Rattle.logic.specs.Expressions.{Expr, levels as depth};
ghost use Rattle.terms.specs.Nodes.{variable?, constant?, places_of, temporal?, spans, variables_of, some_temporal, Stands};
ghost use Rattle.lists.specs.Lists.{part as its_part};
ghost use Rattle.terms.specs.Reaches.{Reaches};

use sets::{union, variable};

// A node is a number and no value of an enum: the public reading operations promise the deck that they give number by number (`stored`),
// and its nodes have a fixed place in memory, two bytes each.

// A node below this number is the variable of that number.
pub const VARIABLES_END: u16 = 256;

pub const ZERO: u16 = 256;

pub const ONE: u16 = 257;

pub const NOT: u16 = 258;

pub const AND: u16 = 259;

pub const OR: u16 = 260;

pub const NEXT: u16 = 261;

pub const FUTURE: u16 = 262;

pub const ALWAYS: u16 = 263;

pub const UNTIL: u16 = 264;

pub const WEAK: u16 = 265;

// Whether the node is a variable.
pub fn is_variable(node: u16) -> bool
    ensures { result ≡ variable? node }
{
    node < VARIABLES_END
}

// Whether the node is a constant.
pub fn is_constant(node: u16) -> bool
    ensures { result ≡ constant? node }
{
    matches!(node, ZERO | ONE)
}

// How many operands the node has.
#[tactic(auto, unfolding(crate::specs::Nodes::places_of))]
pub fn places(node: u16) -> usize
    ensures { result ≡ places_of node }
{
    match node {
        ..=ONE => 0,
        NOT => 1,
        AND | OR => 2,
        NEXT..=ALWAYS => 1,
        UNTIL.. => 2,
    }
}

// Whether the node is `~`, `X`, `F` or `G`.
pub fn is_one_place(node: u16) -> bool
    ensures { result ≡ eqb (places_of node) 1 }
{
    places(node) == 1
}

// Whether the node is `&`, `+`, `U` or `W`.
pub fn is_two_place(node: u16) -> bool
    ensures { result ≡ eqb (places_of node) 2 }
{
    places(node) == 2
}

// Whether the node is one of `X F G U W`.
pub fn is_temporal(node: u16) -> bool
    ensures { result ≡ temporal? node }
{
    NEXT <= node
}

// Where the expression that begins at `at` ends.
pub fn end_of(nodes: &[u16], at: usize) -> usize
    ensures { result ≡ at + spans 1 (drop at nodes.now) }
{
    let mut pending = 1;
    for i in at..nodes.len() {
        if pending == 0 {
            return i;
        }
        pending = pending - 1 + places(nodes[i]);
    }
    at.max(nodes.len())
}

// Where the second operand of the operator at `at` begins.
pub fn second(nodes: &[u16], at: usize) -> usize
    requires { at < length nodes.now }
    ensures { result ≡ at + 1 + spans 1 (drop (at + 1) nodes.now) }
{
    end_of(nodes, at + 1)
}

// The nodes from `at` up to `end`, as far as there are any.
fn part(nodes: &[u16], at: usize, end: usize) -> &[u16]
    ensures { result.now ≡ its_part at end nodes.now }
{
    let to = end.min(nodes.len());
    &nodes[at.min(to)..to]
}

// The set of the variables written from `at` up to `end`.
pub fn written_in(nodes: &[u16], at: usize, end: usize) -> u64
    ensures { result ≡ variables_of (its_part at end nodes.now) }
{
    let mut set = 0;
    for node in part(nodes, at, end) {
        set = union(set, variable(usize::from(*node)));
    }
    set
}

// Whether one of `X F G U W` stands from `at` up to `end`.
pub fn has_temporal(nodes: &[u16], at: usize, end: usize) -> bool
    ensures { result ≡ some_temporal (its_part at end nodes.now) }
{
    part(nodes, at, end).iter().any(|node| is_temporal(*node))
}

// Where an expression ends, and its deepest level.
#[derive(Clone, Copy)]
pub struct Reach {
    pub end: usize,
    pub levels: usize,
}

// The reach of the expression that begins at `at`.
pub fn reach_of(nodes: &[u16], at: usize) -> Reach
    ensures { Reaches nodes.now at result }
{
    if nodes.len() <= at {
        return Reach { end: at, levels: 0 };
    }
    let operands = places(nodes[at]);
    if operands == 0 {
        return Reach {
            end: at + 1,
            levels: 1,
        };
    }
    let a = reach_of(nodes, at + 1);
    if operands == 1 {
        return Reach {
            end: a.end,
            levels: a.levels + 1,
        };
    }
    let b = reach_of(nodes, a.end);
    let most = a.levels.max(b.levels);
    Reach {
        end: b.end,
        levels: most + 1,
    }
}

// The deepest level of the expression that begins at `at`.
pub fn levels_of(nodes: &[u16], at: usize) -> usize
    ensures { (e : Expr) → Stands nodes.now at e → result ≡ depth e }
{
    reach_of(nodes, at).levels
}
