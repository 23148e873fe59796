// The reader of claims.
#![tactic(auto)]

ghost use Rattle.std.specs.Prelude.{◌≡◌, ℕ, ◌+◌, ◌*◌, ◌<◌, ◌≤◌, length, replicate, IfOk};
ghost use Rattle.logic.specs.Decks.{base};
ghost use Rattle.logic.specs.Meaning.{Claim};
ghost use Rattle.frames.specs.Read.{ClaimSofar, ClaimDue, StatesDue, claim_line, read_claim};
ghost use Rattle.claimreading.specs.Held.{held_of, line_of, HoldsStates, RoomFor, Came, ClaimCame};

use decks::Refusal;

// The kinds of a claim's frames, bytes of the text, as in `reading`.
const CLAIM: u8 = 17;

const STATE: u8 = 18;

const CLAIM_COUNT: u8 = 21;

// The text at fault.
const CLAIM_TEXT: u64 = 2;

// Two bytes.
const TWO_BYTES: u64 = 65536;

// Which frames are due.
#[derive(Clone, Copy, PartialEq, Eq)]
pub enum Due {
    Sizes,
    States,
    Nothing,
}

// What the lines of a claim so far came to, but for the states themselves.
#[derive(Clone, Copy)]
pub struct Held {
    pub due: Due,
    pub p: usize,
    pub c: usize,
    pub count: usize,
}

// A claim that was read, beside the row of its states.
#[derive(Clone, Copy)]
pub struct ClaimRead {
    pub p: usize,
    pub c: usize,
}

// Nothing is held: as the definition begins, which a derived Default would not say.
fn nothing() -> Held
    ensures { result ≡ held_of ClaimDue }
{
    Held {
        due: Due::Sizes,
        p: 0,
        c: 0,
        count: 0,
    }
}

// 11: p, then c.
fn sizes_line(line: &[u8], n: u64) -> Result<Held, Refusal>
    ensures { (result ≡ line_of (claim_line 0 n line.now ClaimDue)) × IfOk result (λ r. (r.p + r.c ≤ base.states) × (r.count ≡ 0)) }
{
    if lines::pair_at(line, 0) != Some(CLAIM) {
        return Err(Refusal::BadFrame(CLAIM_TEXT, n));
    }
    let Some(x) = lines::number_at(line, 2, 4) else {
        return Err(Refusal::BadFrame(CLAIM_TEXT, n));
    };
    let p = (x / TWO_BYTES) as usize;
    let c = (x % TWO_BYTES) as usize;
    if c == 0 {
        return Err(Refusal::BadFrame(CLAIM_TEXT, n));
    }
    if p + c > decks::STATES {
        return Err(Refusal::BadFrame(CLAIM_TEXT, n));
    }
    Ok(Held {
        due: Due::States,
        p,
        c,
        count: 0,
    })
}

// 12: a state, where one is due.
fn state_line(line: &[u8], n: u64, vars: u64, h: Held, states: &mut [u64]) -> Result<Held, Refusal>
    requires { (h.p + h.c ≤ base.states) × (h.count < h.p + h.c) × RoomFor (19 * h.count + length line.now + 1) states.old }
    ensures { (length states.new ≡ length states.old) × IfOk result (λ r. (r.p + r.c ≤ base.states) × (19 * r.count ≤ 19 * h.count + length line.now + 1)) × ((m : Claim) → h ≡ held_of (StatesDue m) → HoldsStates (StatesDue m) states.old → Came (claim_line vars n line.now (StatesDue m)) result states.new) }
{
    if lines::pair_at(line, 0) != Some(STATE) {
        return Err(Refusal::BadFrame(CLAIM_TEXT, n));
    }
    let Some(s) = lines::number_at(line, 2, 8) else {
        return Err(Refusal::BadFrame(CLAIM_TEXT, n));
    };
    if !sets::subset(s, vars) {
        return Err(Refusal::Outside(CLAIM_TEXT, n));
    }
    states[h.count] = s;
    Ok(Held {
        count: h.count + 1,
        ..h
    })
}

// 15: the number of frames before it, behind the last state.
fn count_line(line: &[u8], n: u64, h: Held) -> Result<Held, Refusal>
    requires { (1 ≤ n) × (h.p + h.c ≤ h.count) }
    ensures { IfOk result (λ r. (r.p ≡ h.p) × (r.c ≡ h.c) × (r.count ≡ h.count)) × ((v : ℕ) (m : Claim) → h ≡ held_of (StatesDue m) → result ≡ line_of (claim_line v n line.now (StatesDue m))) }
{
    if lines::pair_at(line, 0) != Some(CLAIM_COUNT) {
        return Err(Refusal::BadFrame(CLAIM_TEXT, n));
    }
    if !lines::counts(line, n) {
        return Err(Refusal::BadFrame(CLAIM_TEXT, n));
    }
    Ok(Held {
        due: Due::Nothing,
        ..h
    })
}

// Line n of a claim.
fn claim_line(line: &[u8], n: u64, vars: u64, h: Held, states: &mut [u64]) -> Result<Held, Refusal>
    requires { (1 ≤ n) × (h.p + h.c ≤ base.states) × RoomFor (19 * h.count + length line.now + 1) states.old }
    ensures { (length states.new ≡ length states.old) × IfOk result (λ r. (r.p + r.c ≤ base.states) × (19 * r.count ≤ 19 * h.count + length line.now + 1)) × ((s : ClaimSofar) → h ≡ held_of s → HoldsStates s states.old → Came (claim_line vars n line.now s) result states.new) }
{
    match h.due {
        Due::Sizes => sizes_line(line, n),
        Due::States if h.count < h.p + h.c => state_line(line, n, vars, h, states),
        Due::States => count_line(line, n, h),
        Due::Nothing => Err(Refusal::BadFrame(CLAIM_TEXT, n)),
    }
}

// A text read as a claim on a deck with the variables given, into a row of zeros with room for the states that a text of that length can have.
pub fn read_claim(text: &[u8], vars: u64, states: &mut [u64]) -> Result<ClaimRead, Refusal>
    requires { (states.old ≡ replicate (length states.old) 0) × RoomFor (length text.now) states.old }
    ensures { (length states.new ≡ length states.old) × ClaimCame (read_claim vars text.now) result states.new }
{
    if text.len() > decks::TEXT {
        return Err(Refusal::TooLong(CLAIM_TEXT));
    }
    let mut held = nothing();
    let mut at = 0;
    let mut n = 1u64;
    // A deck's lines are gone over in the same way (`reading`). One walk for both would need a trait with ghost members and laws for what each line asks for and leaves, and a type that lends each reader its rows: more than both loops, and no plainer.
    while at < text.len() {
        let end = ends::line_end(text, at);
        if end == text.len() {
            return Err(Refusal::BadFrame(CLAIM_TEXT, 0));
        }
        held = claim_line(&text[at..end], n, vars, held, states)?;
        at = end + 1;
        n += 1;
    }
    if held.due != Due::Nothing {
        return Err(Refusal::BadFrame(CLAIM_TEXT, 0));
    }
    Ok(ClaimRead {
        p: held.p,
        c: held.c,
    })
}
