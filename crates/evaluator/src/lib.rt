// The values of an expression at all states of a claim side by side: one word of pending values for each state.
// Each operator but `U` and `W`, which are in `sweeps`, is one pass over the words. What `~`, `&`, `+` and a variable do to a word has no branch, so that their passes run on vectors.
#![tactic(auto)]

ghost use Rattle.std.specs.Prelude.{◌≡◌, ℕ, ◌+◌, ◌*◌, ◌-◌, ◌/◌, ◌%◌, ◌^◌, ◌<◌, min, max, length, get_or};
ghost use Rattle.evaluator.specs.Pending.{top, second, Made, pushed, topped, joined, All, Below, variable_word, next_word};

// Every word becomes what f makes of its place and of the word.
pub fn each<F: Fn(usize, u64) -> u64>(words: &mut [u64], f: F)
    requires { (i : ℕ) → i < length words.old → F.pre f i (get_or words.old i 0) }
    ensures { Made (F.post f) words.old words.new }
{
    for (i, w) in words.iter_mut().enumerate() {
        *w = f(i, *w);
    }
}

// A constant at every state.
pub fn push(words: &mut [u64], x: u64)
    requires { Below 63 words.old × (x < 2) }
    ensures { All (λ i w. pushed w x) words.old words.new }
{
    each(words, |_, w| 2 * w + x);
}

// The value of the variable at every state.
pub fn push_variable(words: &mut [u64], states: &[u64], v: usize)
    requires { Below 63 words.old × (length words.old ≡ length states.now) }
    ensures { All (variable_word states.now v) words.old words.new }
{
    each(words, |i, w| 2 * w + sets::digit(states[i], v));
}

// `~` at every state.
pub fn flip(words: &mut [u64])
    ensures { All (λ i w. topped w (1 - top w)) words.old words.new }
{
    each(words, |_, w| 2 * (w / 2) + (1 - w % 2));
}

// `&` at every state.
pub fn both(words: &mut [u64])
    ensures { All (λ i w. joined w (min (second w) (top w))) words.old words.new }
{
    each(words, |_, w| 2 * (w / 4) + (w / 2 & w) % 2);
}

// `+` at every state.
pub fn either(words: &mut [u64])
    ensures { All (λ i w. joined w (max (second w) (top w))) words.old words.new }
{
    each(words, |_, w| 2 * (w / 4) + (w / 2 | w) % 2);
}

// 1 below the topmost value at every state.
pub fn lift(words: &mut [u64])
    requires { Below 63 words.old }
    ensures { All (λ i w. pushed (topped w 1) (top w)) words.old words.new }
{
    each(words, |_, w| 4 * (w / 2) + 2 + w % 2);
}

// `X` at every state: the last one is followed by state p.
pub fn next(words: &mut [u64], p: usize)
    requires { p < length words.old }
    ensures { All (next_word p words.old) words.old words.new }
{
    let back = words[p];
    let last = words.len() - 1;
    // By index: each turn reads the word behind the one that it writes, and neither `each` nor an iterator lends both.
    for i in 0..last {
        words[i] = 2 * (words[i] / 2) + words[i + 1] % 2;
    }
    words[last] = 2 * (words[last] / 2) + back % 2;
}
