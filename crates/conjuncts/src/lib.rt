// Where the conjuncts of a property stand in its nodes, and initial states seen on a set of variables.
#![tactic(auto)]

ghost use Rattle.std.specs.Prelude.{◌≡◌, List, [], ◌∷◌, ◌++◌, ℕ, ◌+◌, ◌<◌, ◌≤◌, length, take};
ghost use Rattle.lists.specs.Lists.{firsts};
ghost use Rattle.logic.specs.Expressions.{Expr};
ghost use Rattle.logic.specs.Pieces.{projected};
ghost use Rattle.conjuncts.specs.declared.Span.{Span as Its};
ghost use Rattle.conjuncts.specs.Conjuncts.{bounds, Coded};

use std::marker::Model;

// Where the code of a conjunct begins in the property's nodes, and the place behind it.
#[derive(Clone, Copy)]
pub struct Span {
    pub from: usize,
    pub to: usize,
}

// The spans of a property's conjuncts, in order, of which there may be N.
#[derive(Drop)]
pub struct Spans<const N: usize> {
    row: [Span; N],
    count: usize,
}

impl<const N: usize> Model for Spans<N> {
    ghost Value = { List Its };

    ghost view = { λ s. take s.count s.row };

    ghost invariant = { λ s. s.count ≤ N };
}

impl<const N: usize> Spans<N> {
    pub fn none() -> Spans<N>
        ensures { result ≡ [] }
    {
        Spans {
            row: [Span { from: 0, to: 0 }; N],
            count: 0,
        }
    }

    pub fn as_slice(&self) -> &[Span]
        ensures { result.now ≡ self.now }
    {
        &self.row[..self.count]
    }
}

// The spans of the conjuncts of the property with this code behind those that are there. The code begins at place `offset`;
// `(a&b)` gives the split of a, then that of b.
pub fn split<const N: usize>(code: &[u16], offset: usize, spans: &mut Spans<N>)
    requires { (e : Expr) × Coded e code.now offset spans.old N }
    ensures { (e : Expr) → Coded e code.now offset spans.old N → spans.new ≡ spans.old ++ bounds offset e }
{
    spans.count = split_row(code, offset, &mut spans.row, spans.count);
}

// The same behind the first `count` spans of a row, and how many there are then. The row and its count stand here beside each
// other since a function that calls itself and is lent a `Spans<N>` gets no proof.
fn split_row(code: &[u16], offset: usize, row: &mut [Span], count: usize) -> usize
    requires { (count ≤ length row.old) × ((e : Expr) × Coded e code.now offset (take count row.old) (length row.old)) }
    ensures { (result ≤ length row.old) × (length row.new ≡ length row.old) × ((e : Expr) → Coded e code.now offset (take count row.old) (length row.old) → take result row.new ≡ take count row.old ++ bounds offset e) }
{
    if code[0] != terms::AND {
        let to = offset + code.len();
        row[count] = Span { from: offset, to };
        return count + 1;
    }
    let second = terms::second(code, 0);
    let n = split_row(&code[1..second], offset + 1, row, count);
    split_row(&code[second..], offset + second, row, n)
}

// The spans of the conjuncts of a property.
pub fn split_property<const N: usize>(property: &[u16]) -> Spans<N>
    requires { (e : Expr) × Coded e property.now 0 [] N }
    ensures { (e : Expr) → Coded e property.now 0 [] N → result ≡ bounds 0 e }
{
    let mut spans = Spans::none();
    split(property, 0, &mut spans);
    spans
}

// A state behind the first n, where it does not stand among them, and how many there are then. No heap: the row has its fixed place.
fn add_state(row: &mut [u64], n: usize, s: u64) -> usize
    requires { n < length row.old }
    ensures { (result ≤ n + 1) × (length row.new ≡ length row.old) × ((xs : List ℕ) → take n row.old ≡ firsts xs → take result row.new ≡ firsts (xs ++ s ∷ [])) }
{
    if decks::stands_in(&row[..n], s) {
        return n;
    }
    row[n] = s;
    n + 1
}

// The states with values outside the set put to 0, equal ones dropped, the first kept, into a row, and how many they are.
pub fn project(inits: &[u64], set: u64, row: &mut [u64]) -> usize
    requires { length inits.now ≤ length row.old }
    ensures { (result ≤ length inits.now) × (length row.new ≡ length row.old) × (take result row.new ≡ projected set inits.now) }
{
    let mut n = 0;
    for s in inits {
        let seen = sets::meet(*s, set);
        n = add_state(row, n, seen);
    }
    n
}
