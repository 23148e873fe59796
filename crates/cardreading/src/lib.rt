// The reader of cards: a text of cards read as a deck.
#![tactic(auto)]

ghost use Rattle.std.specs.Prelude.{◌≡◌, IfErr};
ghost use Rattle.decks.specs.Answers.{afterwards};
ghost use Rattle.decks.specs.Stored.{blank};
ghost use Rattle.decks.specs.Readings.{walk};
ghost use Rattle.decks.specs.Lent.{ReadInto, RowsBlank, Uncounted};
ghost use Rattle.cards.specs.Card.{cards_of};
ghost use Rattle.cards.specs.Statement.{statements_of};
ghost use Rattle.cards.specs.Read.{begun, statement_read, cards_end, read_cards};
ghost use Rattle.statements.specs.Hold.{Formed};
ghost use Rattle.cardlines.specs.Held.{Came};

use cardlines::{Due, Held};
use decks::{Deck, Refusal};
use firstpass::Cards;

// Statement by statement, into a blank deck.
fn all_statements(text: &[u8], deck: &mut Deck) -> Result<Held, Refusal>
    requires { Formed 1 (cards_of text.now) × (deck.old ≡ blank) }
    ensures { Came (walk statement_read 1 (statements_of (cards_of text.now)) begun) result deck.new }
{
    let mut scratch = [0; cardlines::NODES];
    let mut held = cardlines::nothing();
    let mut left = Cards::of(text);
    while let Some(opener) = statements::opening(left) {
        let (next, behind) = cardsteps::one_statement(opener, held, &mut scratch, deck)?;
        held = next;
        left = behind;
    }
    Ok(held)
}

// The statements of cards that are in form, then what is missing, then their equations by rising variable and the deck.
fn second_pass(text: &[u8], deck: &mut Deck) -> Result<(), Refusal>
    requires { Formed 1 (cards_of text.now) × (deck.old ≡ blank) }
    ensures { ReadInto (afterwards (walk statement_read 1 (statements_of (cards_of text.now)) begun) cards_end) result deck.new }
{
    let held = all_statements(text, deck)?;
    if held.due != Due::Nothing {
        return Err(Refusal::NotDue(0));
    }
    sorting::sort(&mut deck.equations, held.count);
    cardends::finished(held, deck)
}

// Both passes over a text of cards, into a blank deck.
fn both_passes(text: &[u8], deck: &mut Deck) -> Result<(), Refusal>
    requires { deck.old ≡ blank }
    ensures { ReadInto (read_cards text.now) result deck.new }
{
    if text.len() > decks::TEXT {
        return Err(Refusal::TooLong(1));
    }
    firstpass::first_pass(text)?;
    second_pass(text, deck)
}

// A text of cards read as a deck, into rows of zeros, whatever the variables and the counts beside them are. Behind a refusal these are 0.
pub fn read_cards(text: &[u8], deck: &mut Deck) -> Result<(), Refusal>
    requires { RowsBlank deck.old }
    ensures read { ReadInto (read_cards text.now) result deck.new }
    ensures refused { IfErr result (λ a. Uncounted deck.new) }
{
    deck.uncount();
    let done = both_passes(text, deck);
    if done.is_err() {
        deck.uncount();
    }
    done
}
