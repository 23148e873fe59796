// The statement that a card of a text opens, read.
#![tactic(auto)]

ghost use Rattle.std.specs.Prelude.{◌≡◌, OnErr};
ghost use Rattle.statements.specs.Hold.{Placed};
ghost use Rattle.cardlines.specs.Held.{Small};
ghost use Rattle.cardsteps.specs.Stepped.{Stepped};

use cardlines::{Held, NODES};
use decks::{Deck, Refusal};
use firstpass::Cards;
use statements::Opener;

// The statement that a card opens and others continue. It stands by itself since a function puts zeros into all that it has room for where
// it begins: what holds a whole statement is paid for by such a statement alone.
fn continued_statement<'a>(
    opener: Opener<'a>,
    held: Held,
    scratch: &mut [u16; NODES],
    deck: &mut Deck,
) -> Result<(Held, Cards<'a>), Refusal>
    requires { Placed opener × Small held deck.old }
    ensures came { Stepped opener.entry held deck.old result deck.new }
    ensures vars { deck.new.vars ≡ deck.old.vars }
    ensures kept { OnErr result (deck.new ≡ deck.old) }
{
    let (stmt, left) = statements::whole_statement(opener);
    let next = cardlines::statement_read(stmt.characters(), stmt.cards[0], held, scratch, deck)?;
    Ok((next, left))
}

// The statement that a card opens, where it stands on that card alone from its field there, else with the cards that continue it:
// what is held behind it, and the cards behind it.
pub fn one_statement<'a>(
    opener: Opener<'a>,
    held: Held,
    scratch: &mut [u16; NODES],
    deck: &mut Deck,
) -> Result<(Held, Cards<'a>), Refusal>
    requires { Placed opener × Small held deck.old }
    ensures came { Stepped opener.entry held deck.old result deck.new }
    ensures vars { deck.new.vars ≡ deck.old.vars }
    ensures kept { OnErr result (deck.new ≡ deck.old) }
{
    if statements::is_continued(opener.behind) {
        return continued_statement(opener, held, scratch, deck);
    }
    let field = firstpass::field(opener.card);
    let next = cardlines::statement_read(field, opener.n, held, scratch, deck)?;
    Ok((next, opener.behind))
}
