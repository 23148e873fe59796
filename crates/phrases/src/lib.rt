// Readers of expressions over the characters of a statement; the nodes go in prefix order into a lent array, from the place `used` on:
// an operator's place is kept while its operands are read behind it, so the array is not cut there.
#![tactic(auto)]

ghost use Rattle.std.specs.Prelude.{◌≡◌, [], ◌+◌, ◌-◌, ◌/◌, ◌<◌, ◌≤◌, length};
ghost use Rattle.logic.specs.Expressions.{Op1, node1};
ghost use Rattle.cards.specs.Grammar.{Variable, Before, Bracket, sign_of, joint_of, begins, read_expr};
ghost use Rattle.grammar.specs.Ahead.{ahead};
ghost use Rattle.phrases.specs.Phrases.{marked, joint_node, Joins, Reads, Fills};

// Why no whole expression was read, and at which place: a character that cannot go on (8), or one that begins an expression at level 33 (11).
#[derive(Clone, Copy, PartialEq, Eq)]
pub enum Stop {
    Wrong(usize),
    Deep(usize),
}

// The place behind an expression that was read, and how many places of the array are used then.
#[derive(Clone, Copy)]
pub struct Phrase {
    pub next: usize,
    pub used: usize,
}

// What a character begins: a variable, a constant or one of `~ X F G`, each with its node, or an expression in brackets.
#[derive(Clone, Copy)]
enum Sign {
    Variable,
    Constant(u16),
    Operator(u16),
    Bracket,
}

// The node of an operator between two operands, and the place behind its sign.
#[derive(Clone, Copy)]
struct Joint {
    node: u16,
    next: usize,
}

// What the character begins, if it begins an expression.
#[tactic(auto, unfolding(cards::specs::Grammar::sign_of))]
fn sign_of(c: u8) -> Option<Sign>
    ensures { result ≡ marked (sign_of c) }
{
    match c {
        b'0' => Some(Sign::Constant(terms::ZERO)),
        b'1' => Some(Sign::Constant(terms::ONE)),
        b'V' => Some(Sign::Variable),
        b'~' => Some(Sign::Operator(terms::NOT)),
        b'X' => Some(Sign::Operator(terms::NEXT)),
        b'F' => Some(Sign::Operator(terms::FUTURE)),
        b'G' => Some(Sign::Operator(terms::ALWAYS)),
        b'(' => Some(Sign::Bracket),
        _ => None,
    }
}

// The node of one of `& + U W`.
#[tactic(auto, unfolding(cards::specs::Grammar::joint_of))]
fn joint_of(c: u8) -> Option<u16>
    ensures { result ≡ joint_node (joint_of c) }
{
    match c {
        b'&' => Some(terms::AND),
        b'+' => Some(terms::OR),
        b'U' => Some(terms::UNTIL),
        b'W' => Some(terms::WEAK),
        _ => None,
    }
}

// The expression that stands first. The levels left count two each: one for the step from an expression to its operands,
// one for the step from there to an expression again, so that they fall at each call.
#[cycle(expression_operand_pair)]
fn expression(
    chars: &[u8],
    at: usize,
    left: usize,
    out: &mut [u16],
    used: usize,
) -> Result<Phrase, Stop>
    requires { (at ≤ length chars.now) × (used + (length chars.now - at) ≤ length out.old) }
    ensures { Reads chars.now at (read_expr (left / 2) (ahead chars.now at)) out.old used used result out.new }
{
    let Some(c) = grammar::next_ink(chars, at) else {
        return Err(Stop::Wrong(chars.len()));
    };
    let Some(sign) = sign_of(c.code) else {
        return Err(Stop::Wrong(c.place));
    };
    if left < 2 {
        return Err(Stop::Deep(c.place));
    }
    match sign {
        Sign::Variable => variable(chars, c.next, out, used),
        Sign::Constant(node) => {
            out[used] = node;
            Ok(Phrase {
                next: c.next,
                used: used + 1,
            })
        }
        Sign::Operator(node) => operand(chars, c.next, left - 1, node, out, used),
        Sign::Bracket => pair(chars, c.next, left - 1, out, used),
    }
}

// The number of a variable behind its `V`.
fn variable(chars: &[u8], at: usize, out: &mut [u16], used: usize) -> Result<Phrase, Stop>
    requires { (at ≤ length chars.now) × (used < length out.old) }
    ensures { Reads chars.now at (begins (read_expr 0) [] Variable (ahead chars.now at)) out.old used (used + 1) result out.new }
{
    let v = grammar::read_number(chars, at).map_err(Stop::Wrong)?;
    out[used] = v.value;
    Ok(Phrase {
        next: v.next,
        used: used + 1,
    })
}

// Behind one of `~ X F G`: its operand, a whole expression. The operator's node goes before it, to the place kept for it.
#[cycle(expression_operand_pair)]
fn operand(
    chars: &[u8],
    at: usize,
    left: usize,
    node: u16,
    out: &mut [u16],
    used: usize,
) -> Result<Phrase, Stop>
    requires { (at ≤ length chars.now) × (1 ≤ left) × (used + 1 + (length chars.now - at) ≤ length out.old) }
    ensures { (o : Op1) → node ≡ node1 o → Reads chars.now at (begins (read_expr ((left - 1) / 2)) [] (Before o) (ahead chars.now at)) out.old used (used + 1) result out.new }
{
    let first = expression(chars, at, left - 1, out, used + 1)?;
    out[used] = node;
    Ok(first)
}

// Behind `(`: two operands, each a whole expression, with their operator between them, and `)`. The operator's node goes before them.
#[cycle(expression_operand_pair)]
fn pair(chars: &[u8], at: usize, left: usize, out: &mut [u16], used: usize) -> Result<Phrase, Stop>
    requires { (at ≤ length chars.now) × (1 ≤ left) × (used + 1 + (length chars.now - at) ≤ length out.old) }
    ensures { Reads chars.now at (begins (read_expr ((left - 1) / 2)) [] Bracket (ahead chars.now at)) out.old used (used + 1) result out.new }
{
    let first = expression(chars, at, left - 1, out, used + 1)?;
    let joint = joining(chars, first.next).map_err(Stop::Wrong)?;
    out[used] = joint.node;
    let second = expression(chars, joint.next, left - 1, out, first.used)?;
    let next = grammar::read_word(chars, second.next, b")").map_err(Stop::Wrong)?;
    Ok(Phrase {
        next,
        used: second.used,
    })
}

// Behind a first operand: one of `& + U W`; or the place of the fault.
fn joining(chars: &[u8], at: usize) -> Result<Joint, usize>
    requires { at ≤ length chars.now }
    ensures { Joins chars.now at result }
{
    let Some(c) = grammar::next_ink(chars, at) else {
        return Err(chars.len());
    };
    match joint_of(c.code) {
        Some(node) => Ok(Joint { node, next: c.next }),
        None => Err(c.place),
    }
}

// Two for each of the levels that an expression may have.
const LEFT: usize = 2 * decks::LEVELS;

// The number of nodes of the expression that fills the rest of the statement.
pub fn whole_expression(chars: &[u8], at: usize, out: &mut [u16]) -> Result<usize, Stop>
    requires { (at ≤ length chars.now) × (length chars.now - at ≤ length out.old) }
    ensures { Fills chars.now at out.old result out.new }
{
    let e = expression(chars, at, LEFT, out, 0)?;
    if let Some(c) = grammar::next_ink(chars, e.next) {
        return Err(Stop::Wrong(c.place));
    }
    Ok(e.used)
}
