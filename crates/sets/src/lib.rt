// Sets of variables as u64 words: digit v of the word is 1 where Vv is in the set.
#![tactic(auto)]

ghost use Rattle.std.specs.Prelude.{◌≡◌, ◌%◌, ◌^◌};
ghost use Rattle.sets.specs.Sets.{bit, has, only, union, meet, without, inside, size, lowest_of, width};

// The variables that a word has room for.
const WIDTH: usize = 64;

// The variable's digit: 1 where it is in the set, 0 where it is not.
pub fn digit(s: u64, v: usize) -> u64
    ensures { result ≡ bit s v }
{
    if v >= WIDTH {
        return 0;
    }
    (s >> v) % 2
}

// Whether the variable is in the set.
pub fn member(s: u64, v: usize) -> bool
    ensures { result ≡ has s v }
{
    digit(s, v) == 1
}

// The set of the variable alone; empty where a word has no room for it.
pub fn variable(v: usize) -> u64
    ensures { result ≡ only v % 2 ^ width }
{
    if v >= WIDTH {
        return 0;
    }
    1u64 << v
}

// The variables in one set or the other.
pub fn union(s: u64, t: u64) -> u64
    ensures { result ≡ union s t }
{
    s | t
}

// The variables in both sets.
pub fn meet(s: u64, t: u64) -> u64
    ensures { result ≡ meet s t }
{
    s & t
}

// The variables of the set without those that are gone.
pub fn without(s: u64, gone: u64) -> u64
    ensures { result ≡ without s gone }
{
    s - (s & gone)
}

// Whether every variable of the set is among all.
pub fn subset(s: u64, all: u64) -> bool
    ensures { result ≡ inside s all }
{
    (s & all) == s
}

// The number of variables in the set.
pub fn size(s: u64) -> usize
    ensures { result ≡ size s }
{
    s.count_ones() as usize
}

// The lowest variable of the set; WIDTH for the empty set, which the program `ground` prints and `lowest_of` says: trailing zeros, as the rules ask.
pub fn lowest(s: u64) -> usize
    ensures { result ≡ lowest_of s }
{
    s.trailing_zeros() as usize
}
