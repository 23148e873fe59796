// Runs the cases of a bundle on standard input through the public operations, and prints a line for each reply.
#![tactic(auto)]

use bundle::{Case, Source};
use replies::{CountReply, DeckReply};
use std::io::Read;

// The code that closes the bundle.
const CLOSE: u8 = b'.';

// The bytes of the buffer that the operations write into.
const BUFFER: usize = bundle::ROOM + bundle::BEHIND;

// The operations of a case.
#[derive(Clone, Copy)]
enum Operation {
    ReadCards,
    ReadFrames,
    WriteCards,
    WriteFrames,
    ReduceCards,
    ReduceFrames,
    Cone,
    Check,
}

// Why no further case is run.
#[derive(Clone, Copy)]
enum End {
    Closed,
    NoOperation,
    Unwritten,
}

impl TryFrom<u8> for Operation {
    type Error = End;

    fn try_from(code: u8) -> Result<Operation, End> {
        match code {
            b'd' => Ok(Operation::ReadCards),
            b'D' => Ok(Operation::ReadFrames),
            b'w' => Ok(Operation::WriteCards),
            b'W' => Ok(Operation::WriteFrames),
            b'r' => Ok(Operation::ReduceCards),
            b'R' => Ok(Operation::ReduceFrames),
            b'c' => Ok(Operation::Cone),
            b'k' => Ok(Operation::Check),
            CLOSE => Err(End::Closed),
            _ => Err(End::NoOperation),
        }
    }
}

// A deck as the bundle counts it: its set, and its initial states and equations.
fn counted(r: DeckReply) -> CountReply {
    let d = r.deck;
    let initials = d.initials as u64;
    let equations = d.equations.count as u64;
    CountReply {
        number: r.number,
        text: r.text,
        place: r.place,
        first: d.vars,
        second: initials.wrapping_add(equations << 16),
    }
}

fn check(deck: &[u8], claim: &[u8]) -> CountReply {
    let r = station::check(deck, claim);
    CountReply {
        number: r.number,
        text: r.text,
        place: r.place,
        first: 0,
        second: 0,
    }
}

// What an operation replies, and what it leaves in the lent buffer.
fn perform(operation: Operation, case: Case, out: &mut [u8]) -> CountReply {
    let deck = case.deck;
    match operation {
        Operation::ReadCards => counted(station::read_cards(deck)),
        Operation::ReadFrames => counted(station::read_frames(deck)),
        Operation::WriteCards => station::write_cards(deck, out),
        Operation::WriteFrames => station::write_frames(deck, out),
        Operation::ReduceCards => station::reduce_cards(deck, out),
        Operation::ReduceFrames => station::reduce_frames(deck, out),
        Operation::Cone => station::cone(deck, case.set),
        Operation::Check => check(deck, case.claim),
    }
}

// Runs a case and prints its line; the digest covers what is lent and some bytes behind it.
fn run_case<P: Print>(
    rt: &P,
    operation: Operation,
    case: Case,
    out: &mut [u8; BUFFER],
) -> std::io::Result<()> {
    let covered = case.room + bundle::BEHIND;
    replylines::clear(&mut out[..covered]);
    let r = perform(operation, case, &mut out[..case.room]);
    let line = replylines::Line {
        operation: u64::from(case.operation),
        number: r.number,
        text: r.text,
        place: r.place,
        first: r.first,
        second: r.second,
        digest: replylines::digest(&out[..covered]),
    };
    replylines::print_line(rt, line)
}

// Reads a case and runs it.
fn run_next<R: Read, P: Print>(
    rt: &P,
    source: &mut Source<R>,
    deck: &mut [u8],
    claim: &mut [u8],
    out: &mut [u8; BUFFER],
) -> Result<(), End> {
    let case = source.next_case(deck, claim).ok_or(End::NoOperation)?;
    let operation = Operation::try_from(case.operation)?;
    run_case(rt, operation, case, out).map_err(|_| End::Unwritten)
}

// Nothing says that the input ends, so the turns are as many as no run uses up.
fn replay<R: Read, P: Print>(
    rt: &P,
    source: &mut Source<R>,
    deck: &mut [u8],
    claim: &mut [u8],
    out: &mut [u8; BUFFER],
) -> End {
    let turns = u64::MAX;
    for _ in 0..turns {
        if let Err(end) = run_next(rt, source, deck, claim, out) {
            return end;
        }
    }
    End::Closed
}

fn main(rt: HostRuntime) {
    let mut buffer = io::large_buffer();
    let mut deck = io::large_buffer();
    let mut claim = io::large_buffer();
    let mut out = [0; BUFFER];
    let mut source = Source::new(rt.reader(), &mut buffer);
    if let End::NoOperation = replay(&rt, &mut source, &mut deck, &mut claim, &mut out) {
        let _ = eprintln!(rt; "replay: a case without an operation");
    }
}
