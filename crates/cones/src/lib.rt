// The dependency table of a deck, the closing of a set, and the cone with its size.
#![tactic(auto)]

ghost use Rattle.std.specs.Prelude.{◌≡◌, List, length, replicate};
ghost use Rattle.logic.specs.Decks.{Equation, Deck, Accepted, base};
ghost use Rattle.logic.specs.Cones.{cone};
ghost use Rattle.decks.specs.Lent.{Hold, in_rows};
ghost use Rattle.cones.specs.Dependencies.{Given, table};
ghost use Rattle.cones.specs.Cone.{cone_read};

use decks::{Refusal, Rows};

// A cone and its size.
#[derive(Clone, Copy)]
pub struct SizedCone {
    pub set: u64,
    pub size: usize,
}

// Fills a table of zeros: for each variable the variables written in any of its equations. Each node is passed once.
pub fn dependencies(equations: Rows, deps: &mut [u64])
    requires { ((qs : List Equation) × Given qs equations.lefts.now equations.ends.now equations.nodes.now equations.count) × (deps.old ≡ replicate base.variables 0) }
    ensures { (qs : List Equation) → Given qs equations.entry.lefts.now equations.entry.ends.now equations.entry.nodes.now equations.entry.count → deps.new ≡ table qs }
{
    let n = equations.count;
    let mut at = 0;
    for (left, end) in equations.lefts[..n].iter().zip(&equations.ends[..n]) {
        let v = usize::from(*left);
        let end = usize::from(*end);
        let more = terms::written_in(equations.nodes, at, end);
        let its = &mut deps[v];
        *its = sets::union(*its, more);
        at = end;
    }
}

// The cone of s in the equations whose table this is. Each variable reached is visited once.
pub fn closing(deps: &[u64], s: u64) -> u64
    requires { length deps.now ≡ base.variables }
    ensures { (qs : List Equation) → deps.now ≡ table qs → result ≡ cone qs s }
{
    let mut reached = s;
    let mut visited = 0;
    while visited != reached {
        let v = sets::lowest(sets::without(reached, visited));
        visited = sets::union(visited, sets::variable(v));
        reached = sets::union(reached, deps[v]);
    }
    reached
}

// The cone of s in the equations that the rows hold.
fn cone_of(equations: Rows, s: u64) -> u64
    requires { (qs : List Equation) × Given qs equations.lefts.now equations.ends.now equations.nodes.now equations.count }
    ensures { (qs : List Equation) → Given qs equations.entry.lefts.now equations.entry.ends.now equations.entry.nodes.now equations.entry.count → result ≡ cone qs s }
{
    let mut deps = [0; decks::VARIABLES];
    dependencies(equations, &mut deps);
    closing(&deps, s)
}

// The cone of s in the deck of these variables and equations, and its size; 9 names the lowest variable outside the deck's.
pub fn cone(vars: u64, equations: Rows, s: u64) -> Result<SizedCone, Refusal>
    requires { (D : Deck) × Accepted base D × (vars ≡ D.vars) × Hold D.equations (in_rows equations) }
    ensures { (D : Deck) → Accepted base D → vars ≡ D.vars → Hold D.equations (in_rows equations.entry) → result ≡ cone_read D s }
{
    let outside = sets::without(s, vars);
    if outside != 0 {
        return Err(Refusal::Outside(0, sets::lowest(outside) as u64));
    }
    let set = cone_of(equations, s);
    Ok(SizedCone {
        set,
        size: sets::size(set),
    })
}
