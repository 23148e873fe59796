// The deck in memory, the limits, and the answers with their numbers.
#![tactic(auto)]

ghost use Rattle.std.specs.Prelude.{◌≡◌, ◌≤◌, take};
ghost use Rattle.lists.specs.Lists.{stands};
ghost use Rattle.logic.specs.Decks.{base};
ghost use Rattle.decks.specs.Answers.{fine, reply_of, reply_to};
ghost use Rattle.decks.specs.Lent.{in_rows};
ghost use Rattle.decks.specs.Stored.{blank, no_equations, sizes_of};
ghost use Rattle.decks.specs.Lent.{without_counts};

// The sizes of RULES 3.
pub const TEXT: usize = 64800;

pub const VARIABLES: usize = 64;

pub const INITIALS: usize = 64;

pub const EQUATIONS: usize = 256;

pub const EQUATION_NODES: usize = 2048;

pub const PROPERTY_NODES: usize = 128;

pub const LEVELS: usize = 32;

pub const STATES: usize = 1024;

// The words of a state or set.
pub const WORDS: usize = 1;

// The equations of a deck: a place for each in lefts and ends, its variable and where its nodes end in nodes.
// What is used of each array stands from its first place on, zeros behind it: no heap, so each has room for the most that a deck may have.
#[derive(Drop)]
pub struct Equations {
    pub count: usize,
    pub lefts: [u16; EQUATIONS],
    pub ends: [u16; EQUATIONS],
    pub nodes: [u16; EQUATION_NODES],
}

// The rows and the count of equations, as somebody lends them: of any length, so that there may be more than a deck has.
#[derive(Clone, Copy)]
pub struct Rows<'a> {
    pub count: usize,
    pub lefts: &'a [u16],
    pub ends: &'a [u16],
    pub nodes: &'a [u16],
}

// A deck: what is used of each array stands from its first place on, zeros behind it.
#[derive(Drop)]
pub struct Deck {
    pub vars: u64,
    pub inits: [u64; INITIALS * WORDS],
    pub initials: usize,
    pub equations: Equations,
    pub property: [u16; PROPERTY_NODES],
    pub size: usize,
}

// The refusals of the table of RULES 7.2, each with what its reply needs beside the number.
#[derive(Clone, Copy, Debug, PartialEq, Eq)]
pub enum Refusal {
    TooLong(u64),
    BadByte(u64),
    TooWide(u64),
    BadStart(u64),
    BadNumber(u64),
    NoneOpen(u64),
    TooManyCards(u64),
    NotDue(u64),
    Outside(u64, u64),
    Temporal(u64),
    TooDeep(u64),
    ManyInitials(u64),
    ManyEquations(u64),
    ManyNodes(u64),
    NoEquation(u64),
    BadFrame(u64, u64),
    NoRoom(u64),
    NotInitial,
    NoStep(u64),
    Holding,
}

// Number, text at fault and place, all zero where nothing is refused. They are numbers since C has them in one word.
#[derive(Clone, Copy, Debug, PartialEq, Eq)]
pub struct Reply {
    pub number: u64,
    pub text: u64,
    pub place: u64,
}

// The limits, as the logic has them.
#[derive(Clone, Copy)]
pub struct Sizes {
    pub text: usize,
    pub variables: usize,
    pub initials: usize,
    pub equations: usize,
    pub equation_nodes: usize,
    pub property_nodes: usize,
    pub levels: usize,
    pub states: usize,
}

// The named limits above are those of the logic.
pub fn limits() -> Sizes
    ensures { result ≡ sizes_of base }
{
    Sizes {
        text: TEXT,
        variables: VARIABLES,
        initials: INITIALS,
        equations: EQUATIONS,
        equation_nodes: EQUATION_NODES,
        property_nodes: PROPERTY_NODES,
        levels: LEVELS,
        states: STATES,
    }
}

// Whether a state is among these.
pub fn stands_in(states: &[u64], s: u64) -> bool
    ensures { result ≡ stands s states.now }
{
    states.contains(&s)
}

impl Equations {
    // The equations as rows that are lent.
    pub fn rows(&self) -> Rows<'_>
        ensures { in_rows result ≡ self.now }
    {
        Rows {
            count: self.count,
            lefts: &self.lefts,
            ends: &self.ends,
            nodes: &self.nodes,
        }
    }
}

impl Deck {
    // The initial states of a deck.
    pub fn initial_states(&self) -> &[u64]
        requires { self.now.initials ≤ base.initials }
        ensures { result.now ≡ take self.now.initials self.now.inits }
    {
        &self.inits[..self.initials]
    }

    // The nodes of its property.
    pub fn property_nodes(&self) -> &[u16]
        requires { self.now.size ≤ base.property_nodes }
        ensures { result.now ≡ take self.now.size self.now.property }
    {
        &self.property[..self.size]
    }

    // Takes its variables and its counts from it. The rows stay.
    pub fn uncount(&mut self)
        ensures { self.new ≡ without_counts self.old }
    {
        self.vars = 0;
        self.initials = 0;
        self.equations.count = 0;
        self.size = 0;
    }
}

impl Reply {
    // The reply where nothing is refused.
    pub fn fine() -> Reply
        ensures { result ≡ fine }
    {
        Reply::of(0, 0, 0)
    }

    fn of(number: u64, text: u64, place: u64) -> Reply
        ensures { result ≡ record { number = number; text = text; place = place } }
    {
        Reply {
            number,
            text,
            place,
        }
    }
}

// Number, text and place of a refusal.
impl From<Refusal> for Reply {
    ghost from_gives = { λ a r. r ≡ reply_of a };

    fn from(a: Refusal) -> Reply {
        match a {
            Refusal::TooLong(t) => Reply::of(1, t, 0),
            Refusal::BadByte(p) => Reply::of(2, 1, p),
            Refusal::TooWide(p) => Reply::of(3, 1, p),
            Refusal::BadStart(p) => Reply::of(4, 1, p),
            Refusal::BadNumber(p) => Reply::of(5, 1, p),
            Refusal::NoneOpen(p) => Reply::of(6, 1, p),
            Refusal::TooManyCards(p) => Reply::of(7, 1, p),
            Refusal::NotDue(p) => Reply::of(8, 1, p),
            Refusal::Outside(t, p) => Reply::of(9, t, p),
            Refusal::Temporal(p) => Reply::of(10, 1, p),
            Refusal::TooDeep(p) => Reply::of(11, 1, p),
            Refusal::ManyInitials(p) => Reply::of(12, 1, p),
            Refusal::ManyEquations(p) => Reply::of(13, 1, p),
            Refusal::ManyNodes(p) => Reply::of(14, 1, p),
            Refusal::NoEquation(p) => Reply::of(15, 1, p),
            Refusal::BadFrame(t, p) => Reply::of(16, t, p),
            Refusal::NoRoom(p) => Reply::of(17, 0, p),
            Refusal::NotInitial => Reply::of(20, 2, 0),
            Refusal::NoStep(p) => Reply::of(21, 2, p),
            Refusal::Holding => Reply::of(22, 2, 0),
        }
    }
}

// The reply to what was done.
pub fn reply_to(done: Result<(), Refusal>) -> Reply
    ensures { result ≡ reply_to done }
{
    match done {
        Ok(()) => Reply::fine(),
        Err(a) => Reply::from(a),
    }
}

// No equations: zeros.
pub fn no_equations() -> Equations
    ensures { result ≡ no_equations }
{
    Equations {
        count: 0,
        lefts: [0; EQUATIONS],
        ends: [0; EQUATIONS],
        nodes: [0; EQUATION_NODES],
    }
}

// The deck of zeros, which stands beside every refusal.
pub fn no_deck() -> Deck
    ensures { result ≡ blank }
{
    Deck {
        vars: 0,
        inits: [0; INITIALS * WORDS],
        initials: 0,
        equations: no_equations(),
        property: [0; PROPERTY_NODES],
        size: 0,
    }
}
