// Claims: the verdict on a claimed run.
#![tactic(auto)]

ghost use Rattle.std.specs.Prelude.{◌≡◌, ◌<◌, length};
ghost use Rattle.logic.specs.Decks.{Deck as Its, Accepted, base};
ghost use Rattle.logic.specs.Verdicts.{verdict};
ghost use Rattle.decks.specs.Stored.{stored};
ghost use Rattle.truths.specs.Worked.{claim_of};
ghost use Rattle.steps.specs.Steps.{Zeros};
ghost use Rattle.claims.specs.Checked.{verdict_answer};

use decks::{Deck, Refusal};

// 20, 21, 22 or accepted, for a claim of these states whose run returns to state p. Words and marks are room to work in, one of each for a state.
pub fn verdict_on(
    deck: &Deck,
    p: usize,
    states: &[u64],
    words: &mut [u64],
    marks: &mut [u64],
) -> Result<(), Refusal>
    requires { ((D : Its) × Accepted base D × (deck.now ≡ stored D)) × (p < length states.now) × Zeros words.old × Zeros marks.old × (length words.old ≡ length states.now) × (length marks.old ≡ length states.now) }
    ensures { (D : Its) → Accepted base D → deck.now ≡ stored D → result ≡ verdict_answer (verdict D (claim_of p states.now)) }
{
    if !decks::stands_in(deck.initial_states(), states[0]) {
        return Err(Refusal::NotInitial);
    }
    steps::mark_all(&deck.equations, states, p, words, marks);
    if let Some(step) = steps::first_lacking(deck.vars, marks) {
        return Err(Refusal::NoStep(step as u64));
    }
    truths::evaluate(&deck.property, 0, states, p, words, decks::LEVELS);
    if words[0] % 2 == 1 {
        return Err(Refusal::Holding);
    }
    Ok(())
}
