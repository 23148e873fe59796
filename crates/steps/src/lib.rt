// The steps of a claim: all states side by side, equation by equation.
#![tactic(auto)]

ghost use Rattle.std.specs.Prelude.{◌≡◌, List, ◌/◌, ◌<◌, eqb, length, MatchOption};
ghost use Rattle.sets.specs.Sets.{bit};
ghost use Rattle.logic.specs.Decks.{Equation, base};
ghost use Rattle.evaluator.specs.Pending.{top, All};
ghost use Rattle.truths.specs.Worked.{Ready};
ghost use Rattle.steps.specs.Steps.{marked, mark_word, taken_word, Marks, Given, Zeros, NoneLacks, FirstLacking};

use decks::Equations;

// The mark of a step with v, where v has in state s, to which the step leads, the value on top of the word w.
#[tactic(auto, unfolding(crate::specs::Steps::marked))]
fn step_marked(mark: u64, w: u64, s: u64, v: usize) -> u64
    ensures { result ≡ marked (eqb (top w) (bit s v)) v mark }
{
    if w % 2 == sets::digit(s, v) {
        sets::union(mark, sets::variable(v))
    } else {
        mark
    }
}

// v is marked at every step behind which it has the pending value. The last step stands apart, so that the pass over the others has no branch.
fn mark(marks: &mut [u64], words: &[u64], states: &[u64], p: usize, v: usize)
    requires { (length words.now ≡ length states.now) × (length marks.old ≡ length states.now) × (p < length states.now) }
    ensures { All (mark_word words.now states.now p v) marks.old marks.new }
{
    let last = marks.len() - 1;
    evaluator::each(&mut marks[..last], |k, mark| {
        step_marked(mark, words[k], states[k + 1], v)
    });
    marks[last] = step_marked(marks[last], words[last], states[p], v);
}

// Every word without its topmost value.
fn pop(words: &mut [u64])
    ensures { All (λ i w. w / 2) words.old words.new }
{
    evaluator::each(words, |_, w| w / 2);
}

// v is marked at every step where the expression that begins at `at` gives the value that v takes; the words stay.
fn mark_equation(
    nodes: &[u16],
    at: usize,
    states: &[u64],
    p: usize,
    v: usize,
    words: &mut [u64],
    marks: &mut [u64],
)
    requires { Ready nodes.now at states.now p words.old base.levels × (length marks.old ≡ length states.now) × (p < length states.now) }
    ensures { (words.new ≡ words.old) × Marks nodes.now at states.now p v marks.old marks.new }
{
    truths::evaluate(nodes, at, states, p, words, decks::LEVELS);
    mark(marks, words, states, p, v);
    pop(words);
}

// Every step is marked with the variables to which one of the equations gives the value that they take.
pub fn mark_all(
    equations: &Equations,
    states: &[u64],
    p: usize,
    words: &mut [u64],
    marks: &mut [u64],
)
    requires { ((qs : List Equation) × Given qs equations.now.lefts equations.now.ends equations.now.nodes equations.now.count) × Zeros words.old × (length words.old ≡ length states.now) × (length marks.old ≡ length states.now) × (p < length states.now) }
    ensures { (words.new ≡ words.old) × ((qs : List Equation) → Given qs equations.now.lefts equations.now.ends equations.now.nodes equations.now.count → All (taken_word qs states.now p) marks.old marks.new) }
{
    let mut at = 0;
    for (left, end) in equations.lefts[..equations.count]
        .iter()
        .zip(equations.ends.iter())
    {
        mark_equation(
            &equations.nodes,
            at,
            states,
            p,
            usize::from(*left),
            words,
            marks,
        );
        at = usize::from(*end);
    }
}

// The lowest step whose mark lacks a variable.
pub fn first_lacking(vars: u64, marks: &[u64]) -> Option<usize>
    ensures { MatchOption result (NoneLacks vars marks.now) (FirstLacking vars marks.now) }
{
    marks.iter().position(|mark| !sets::subset(vars, *mark))
}
