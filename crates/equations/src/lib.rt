// The equations of a set's variables, written as frames and counted.
#![tactic(auto)]

ghost use Rattle.std.specs.Prelude.{◌≡◌, List, ◌++◌, ℕ, ◌+◌, ◌*◌, ◌<◌, ◌≤◌, length, take};
ghost use Rattle.lists.specs.Lists.{splice, keep};
ghost use Rattle.sets.specs.Sets.{has};
ghost use Rattle.logic.specs.Decks.{Equation, base};
ghost use Rattle.logic.specs.Pieces.{equations_of};
ghost use Rattle.decks.specs.Lent.{HoldsEquations, Hold, in_rows};
ghost use Rattle.frames.specs.Hex.{pair};
ghost use Rattle.frames.specs.Written.{equation_kind, node_pairs, frame, equation_frames};
ghost use Rattle.writing.specs.Parts.{Nodes};
ghost use Rattle.equations.specs.Right.{right_begin, right_nodes};

use decks::Rows;

// Where the nodes of equation i begin.
fn begin_of(equations: Rows, i: usize) -> usize
    requires { i ≤ length equations.ends.now }
    ensures { result ≡ right_begin i (in_rows equations.entry) }
{
    if i == 0 {
        return 0;
    }
    usize::from(equations.ends[i - 1])
}

// The nodes of the right side of equation i.
fn right_of<'a>(equations: Rows<'a>, i: usize) -> &'a [u16]
    requires { (qs : List Equation) × Hold qs (in_rows equations) × (i < equations.count) }
    ensures { result.now ≡ right_nodes i (in_rows equations.entry) }
{
    let from = begin_of(equations, i);
    let to = usize::from(equations.ends[i]);
    &equations.nodes[from..to]
}

// The frame of an equation, and its length.
pub fn put_equation(out: &mut [u8], left: u16, nodes: &[u16]) -> usize
    requires { (left < 256) × (2 * length nodes.now + 5 ≤ length out.old) × Nodes nodes.now }
    ensures { (result ≡ 2 * length nodes.now + 5) × (out.new ≡ splice 0 (frame equation_kind (pair left ++ node_pairs nodes.now)) out.old) }
{
    writing::put_byte(out, 3);
    writing::put_byte(&mut out[2..], left as u8);
    let n = writing::put_line(&mut out[4..], nodes);
    n + 4
}

// The frames of the equations of the set's variables, and their length.
// This and the size below walk each by itself: of what a closure changes at each equation nothing would be known after the walk.
pub fn put_equations(out: &mut [u8], vars: u64, equations: Rows) -> usize
    requires { Nodes equations.nodes.now × ((qs : List Equation) × Hold qs (in_rows equations) × (length (equation_frames (equations_of vars qs)) ≤ length out.old)) }
    ensures { (qs : List Equation) → Hold qs (in_rows equations.entry) → (result ≡ length (equation_frames (equations_of vars qs))) × (out.new ≡ splice 0 (equation_frames (equations_of vars qs)) out.old) }
{
    let mut used = 0;
    for i in 0..equations.count {
        let left = equations.lefts[i];
        if sets::member(vars, usize::from(left)) {
            used += put_equation(&mut out[used..], left, right_of(equations, i));
        }
    }
    used
}

// How many equations are of the set's variables.
pub fn count_of(vars: u64, equations: Rows) -> usize
    requires { equations.count ≤ length equations.lefts.now }
    ensures { (result ≡ length (keep (has vars) (take equations.entry.count equations.entry.lefts.now))) × (result ≤ equations.entry.count) }
{
    equations.lefts[..equations.count]
        .iter()
        .filter(|left| sets::member(vars, usize::from(**left)))
        .count()
}

// The length of the frames of the equations of the set's variables.
pub fn equations_size(vars: u64, equations: Rows) -> usize
    requires { (equations.count ≤ base.equations) × ((qs : List Equation) × (ns : List ℕ) × HoldsEquations qs equations.lefts.now equations.ends.now ns equations.count) }
    ensures { (result ≤ 131075 * equations.entry.count) × ((qs : List Equation) (ns : List ℕ) → HoldsEquations qs equations.entry.lefts.now equations.entry.ends.now ns equations.entry.count → result ≡ length (equation_frames (equations_of vars qs))) }
{
    let mut n = 0;
    for i in 0..equations.count {
        if sets::member(vars, usize::from(equations.lefts[i])) {
            let from = begin_of(equations, i);
            let to = usize::from(equations.ends[i]);
            n += 2 * (to - from) + 5;
        }
    }
    n
}
