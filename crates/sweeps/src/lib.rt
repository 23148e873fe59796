// `U` and `W` at all states of a claim side by side, in two sweeps over the words of pending values, from the last state back.
#![tactic(auto)]

ghost use Rattle.std.specs.Prelude.{◌≡◌, ◌<◌, min, max, length};
ghost use Rattle.evaluator.specs.Pending.{top, second, joined, All};
ghost use Rattle.sweeps.specs.Swept.{settled, swept_word};

// What is carried from a state to the one before it: the topmost value there, or the one below it and v.
fn carried(v: u64, w: u64) -> u64
    ensures { result ≡ max (top w) (min (second w) (top v)) }
{
    (w | w / 2 & v) % 2
}

// The value at state p, once round from the last state back, z behind it.
fn settle(words: &[u64], p: usize, z: u64) -> u64
    requires { (p < length words.now) × (z < 2) }
    ensures { (result ≡ settled p z words.now) × (result < 2) }
{
    words[p..].iter().rev().copied().fold(z, carried)
}

// The value at every state from the last one back, start behind it, for the two topmost.
fn sweep(words: &mut [u64], start: u64)
    requires { start < 2 }
    ensures { All (swept_word start words.old) words.old words.new }
{
    let mut v = start;
    // By index: a proof learns nothing of the words that an iterator writes from the back.
    for i in (0..words.len()).rev() {
        v = carried(v, words[i]);
        words[i] = 2 * (words[i] / 4) + v;
    }
}

// The value at every state, z standing behind the last one for ever: the first sweep settles it at state p, to which the run returns.
fn sweep_twice(words: &mut [u64], p: usize, z: u64)
    requires { (p < length words.old) × (z < 2) }
    ensures { All (swept_word (settled p z words.old) words.old) words.old words.new }
{
    let v = settle(words, p, z);
    sweep(words, v);
}

// `U` at every state: nothing has come behind the last.
pub fn until(words: &mut [u64], p: usize)
    requires { p < length words.old }
    ensures { All (swept_word (settled p 0 words.old) words.old) words.old words.new }
{
    sweep_twice(words, p, 0);
}

// `W` at every state: the loop may go on for ever.
pub fn weak(words: &mut [u64], p: usize)
    requires { p < length words.old }
    ensures { All (swept_word (settled p 1 words.old) words.old) words.old words.new }
{
    sweep_twice(words, p, 1);
}
