// Checking: a claim read on the deck that was read, and the verdict on it.
#![tactic(auto)]

ghost use Rattle.std.specs.Prelude.{◌≡◌, ◌≤◌, length, replicate};
ghost use Rattle.logic.specs.Decks.{Deck as Its, Accepted, base};
ghost use Rattle.decks.specs.Answers.{Outcome};
ghost use Rattle.decks.specs.Stored.{stored};
ghost use Rattle.decks.specs.Lent.{ReadInto};
ghost use Rattle.frames.specs.Read.{read_claim};
ghost use Rattle.claims.specs.Checked.{claim_checked, deck_checked};
ghost use Rattle.claimreading.specs.Held.{RoomFor};
ghost use Rattle.replies.specs.Readable.{Readable};

use decks::{Deck, Refusal};

// A claim checked against a deck that was read, in rows of N places: enough for every state that a text of its length can have.
fn judged<const N: usize>(deck: &Deck, claim: &[u8]) -> Result<(), Refusal>
    requires { ((D : Its) × Accepted base D × (deck.now ≡ stored D)) × (N ≤ base.states) × RoomFor (length claim.now) (replicate N 0) }
    ensures { (D : Its) → Accepted base D → deck.now ≡ stored D → result ≡ claim_checked D (read_claim D.vars claim.now) }
{
    let mut states = [0u64; N];
    let mut words = [0u64; N];
    let mut marks = [0u64; N];
    let m = claimreading::read_claim(claim, deck.vars, &mut states)?;
    let count = m.p + m.c;
    claims::verdict_on(
        deck,
        m.p,
        &states[..count],
        &mut words[..count],
        &mut marks[..count],
    )
}

// The states for which short rows have room, and the bytes that a state takes in a claim.
const SHORT: usize = 16;

const STATE_BYTES: usize = 19;

// A claim checked against what was read: in short rows where they are enough, so that few zeros are put for few states.
pub fn checked(read: Result<(), Refusal>, deck: &Deck, claim: &[u8]) -> Result<(), Refusal>
    requires { (o : Outcome Its) × Readable o × ReadInto o read deck.now }
    ensures { (o : Outcome Its) → Readable o → ReadInto o read deck.now → result ≡ deck_checked o claim.now }
{
    read?;
    if claim.len() < STATE_BYTES * SHORT {
        judged::<SHORT>(deck, claim)
    } else {
        judged::<{ decks::STATES }>(deck, claim)
    }
}
