// What comes behind `END`: the set of the first variables, 15, then the deck.
#![tactic(auto)]

ghost use Rattle.std.specs.Prelude.{◌≡◌, ◌≤◌, IfErr};
ghost use Rattle.logic.specs.Decks.{base};
ghost use Rattle.decks.specs.Readings.{complete};
ghost use Rattle.decks.specs.Lent.{ReadInto};
ghost use Rattle.cards.specs.Typed.{first_vars, deck_of};
ghost use Rattle.cards.specs.Read.{Sofar};
ghost use Rattle.cardends.specs.Sorted.{Sorted};

use decks::{Deck, Refusal};

// The set of the first variables.
fn first_vars(count: usize) -> u64
    requires { count ≤ base.variables }
    ensures { result ≡ first_vars count }
{
    if count == decks::VARIABLES {
        return u64::MAX;
    }
    (1 << count) - 1
}

// Behind `END`, with the equations by rising variable: 15, then the deck. A refusal leaves what was lent as it was.
pub fn finished(held: cardlines::Held, deck: &mut Deck) -> Result<(), Refusal>
    requires { (s : Sofar) × Sorted s held deck.old }
    ensures read { (s : Sofar) → Sorted s held deck.old → ReadInto (complete (deck_of s.typed)) result deck.new }
    ensures refused { IfErr result (λ a. deck.new ≡ deck.old) }
{
    let vars = first_vars(held.count);
    let missing = sets::without(vars, sorting::left_set(&deck.equations));
    if missing != 0 {
        return Err(Refusal::NoEquation(sets::lowest(missing) as u64));
    }
    deck.vars = vars;
    Ok(())
}
