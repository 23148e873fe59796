// The truth of an expression at all states of a claim side by side: the recursion goes once a level.
#![tactic(auto)]

ghost use Rattle.std.specs.Prelude.{◌≡◌, ◌<◌, length};
ghost use Rattle.evaluator.specs.Pending.{Below};
ghost use Rattle.truths.specs.Worked.{Leaf, Applied1, Applied2, Ready, Ends, Evaluated};

// A constant or variable.
fn leaf(words: &mut [u64], states: &[u64], node: u16)
    requires { Below 63 words.old × (length words.old ≡ length states.now) }
    ensures { Leaf states.now node words.old words.new }
{
    match node {
        terms::ZERO => evaluator::push(words, 0),
        terms::ONE => evaluator::push(words, 1),
        variable => evaluator::push_variable(words, states, usize::from(variable)),
    }
}

// `~`, `X`, `F` or `G`; `Fa` is `(1Ua)`, `Ga` is `(aW0)`.
fn apply_one(words: &mut [u64], p: usize, node: u16)
    requires { Below 63 words.old × (p < length words.old) }
    ensures { Applied1 p node words.old words.new }
{
    match node {
        terms::NOT => evaluator::flip(words),
        terms::NEXT => evaluator::next(words, p),
        terms::FUTURE => {
            evaluator::lift(words);
            sweeps::until(words, p);
        }
        _ => {
            evaluator::push(words, 0);
            sweeps::weak(words, p);
        }
    }
}

// `&`, `+`, `U` or `W`.
fn apply_two(words: &mut [u64], p: usize, node: u16)
    requires { p < length words.old }
    ensures { Applied2 p node words.old words.new }
{
    match node {
        terms::AND => evaluator::both(words),
        terms::OR => evaluator::either(words),
        terms::UNTIL => sweeps::until(words, p),
        _ => sweeps::weak(words, p),
    }
}

// The expression that begins at `at`, of no more levels than are left, at every state; and where it ends.
pub fn evaluate(
    nodes: &[u16],
    at: usize,
    states: &[u64],
    p: usize,
    words: &mut [u64],
    left: usize,
) -> usize
    requires { Ready nodes.now at states.now p words.old left }
    ensures { Ends nodes.now at result × Evaluated nodes.now at states.now p words.old words.new }
{
    let node = nodes[at];
    let operands = terms::places(node);
    if operands == 0 {
        leaf(words, states, node);
        return at + 1;
    }
    let other = evaluate(nodes, at + 1, states, p, words, left - 1);
    if operands == 1 {
        apply_one(words, p, node);
        return other;
    }
    let end = evaluate(nodes, other, states, p, words, left - 1);
    apply_two(words, p, node);
    end
}
