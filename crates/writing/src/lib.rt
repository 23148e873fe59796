// Decks and claims written as frames.
#![tactic(auto)]

ghost use Rattle.std.specs.Prelude.{◌≡◌, [], ◌∷◌, ◌++◌, ◌+◌, ◌*◌, ◌<◌, ◌≤◌, length};
ghost use Rattle.lists.specs.Lists.{splice};
ghost use Rattle.frames.specs.Hex.{hex_digit, pair, pairs};
ghost use Rattle.frames.specs.Written.{code_byte, node_pairs, frame, state_frames};
ghost use Rattle.writing.specs.Parts.{Nodes};

// The character of a number below 16.
fn digit(n: u8) -> u8
    requires { n < 16 }
    ensures { result ≡ hex_digit n }
{
    if n < 10 { b'0' + n } else { b'A' + (n - 10) }
}

// A byte as a pair.
pub fn put_byte(out: &mut [u8], b: u8)
    requires { 2 ≤ length out.old }
    ensures { out.new ≡ splice 0 (pair b) out.old }
{
    out[0] = digit(b / 16);
    out[1] = digit(b % 16);
}

// The end of a line.
pub fn put_end(out: &mut [u8])
    requires { 1 ≤ length out.old }
    ensures { out.new ≡ splice 0 (10 ∷ []) out.old }
{
    out[0] = b'\n';
}

// The k lowest bytes of a number, high byte first.
pub fn put_number(out: &mut [u8], k: usize, n: u64)
    requires { (k ≤ 8) × (2 * k ≤ length out.old) }
    ensures { out.new ≡ splice 0 (pairs k n) out.old }
{
    let bytes = n.to_be_bytes();
    for (i, b) in bytes[8 - k..].iter().enumerate() {
        put_byte(&mut out[2 * i..], *b);
    }
}

// A frame whose content is a number of k bytes, and its length. Its kind is the byte that stands in the text.
pub fn put_number_frame(out: &mut [u8], kind: u8, k: usize, n: u64) -> usize
    requires { (k ≤ 8) × (2 * k + 3 ≤ length out.old) }
    ensures { (result ≡ 2 * k + 3) × (out.new ≡ splice 0 (frame kind (pairs k n)) out.old) }
{
    put_byte(out, kind);
    put_number(&mut out[2..], k, n);
    let at = 2 * k + 2;
    put_end(&mut out[at..]);
    at + 1
}

// The frames of states, and their length.
pub fn put_states(out: &mut [u8], kind: u8, states: &[u64]) -> usize
    requires { 19 * length states.now ≤ length out.old }
    ensures { (result ≡ 19 * length states.now) × (out.new ≡ splice 0 (state_frames kind states.now) out.old) }
{
    for (i, s) in states.iter().enumerate() {
        put_number_frame(&mut out[19 * i..], kind, 8, *s);
    }
    19 * states.len()
}

// The code of a node.
fn code_of(node: u16) -> u8
    requires { node < 266 }
    ensures { result ≡ code_byte node }
{
    if node < 256 {
        node as u8
    } else {
        (node - 256) as u8 + 64
    }
}

// The pairs of nodes.
pub fn put_nodes(out: &mut [u8], nodes: &[u16])
    requires { (2 * length nodes.now ≤ length out.old) × Nodes nodes.now }
    ensures { out.new ≡ splice 0 (node_pairs nodes.now) out.old }
{
    for (i, node) in nodes.iter().enumerate() {
        put_byte(&mut out[2 * i..], code_of(*node));
    }
}

// The pairs of nodes and the end of their line, and the length of that.
pub fn put_line(out: &mut [u8], nodes: &[u16]) -> usize
    requires { (2 * length nodes.now + 1 ≤ length out.old) × Nodes nodes.now }
    ensures { (result ≡ 2 * length nodes.now + 1) × (out.new ≡ splice 0 (node_pairs nodes.now ++ (10 ∷ [])) out.old) }
{
    put_nodes(out, nodes);
    let at = 2 * nodes.len();
    put_end(&mut out[at..]);
    at + 1
}
