// The reader of one expression, straight from its pairs.
#![tactic(auto)]

ghost use Rattle.std.specs.Prelude.{◌≡◌, ◌+◌, ◌*◌, ◌^◌, ◌<◌, ◌≤◌, length, drop, set, IfOk, IfErr};
ghost use Rattle.frames.specs.Read.{sign_of, read_expr};
ghost use Rattle.codes.specs.Steps.{places_of, step_of, place_of, leaf_vars, node_of, Kept};

// The codes from which on constants and operators stand, and the first that is no code. They are numbers and no values of an enum, since
// a code is compared bound by bound: see `places`.
const CONSTANTS: u8 = 64;

const NOT: u8 = 66;

const AND: u8 = 67;

const NEXT: u8 = 69;

const UNTIL: u8 = 72;

const NO_CODE: u8 = 74;

// What is written in an expression: its nodes, the variables, and whether one of `X F G U W` is there.
#[derive(Clone, Copy)]
pub struct Written {
    pub nodes: usize,
    pub vars: u64,
    pub temporal: bool,
}

// A whole expression, and where what stands behind it begins.
#[derive(Clone, Copy)]
pub struct Read {
    pub written: Written,
    pub next: usize,
}

// Where the reading of an expression stopped: at what no expression can go on with, or at the begin of one too deep.
#[derive(Clone, Copy, PartialEq, Eq)]
pub enum Stop {
    Wrong(usize),
    Deep(usize),
}

// How many operands the code's sign has, where it is a sign.
fn places(b: u8) -> Option<u8>
    ensures { result ≡ places_of (sign_of b) }
{
    // Bound by bound: a `match` on the ranges takes a third more time a node, since it asks for the code of `~` first.
    if b < NOT {
        Some(0)
    } else if b < AND {
        Some(1)
    } else if b < NEXT {
        Some(2)
    } else if b < UNTIL {
        Some(1)
    } else if b < NO_CODE {
        Some(2)
    } else {
        None
    }
}

// The variable that the code is, as a set; nothing for any other code.
fn leaf_vars(b: u8) -> u64
    ensures { result ≡ leaf_vars b }
{
    if b < CONSTANTS {
        sets::variable(usize::from(b))
    } else {
        0
    }
}

// The node of a code.
fn node_of(b: u8) -> u16
    ensures { result ≡ node_of b }
{
    if b < CONSTANTS {
        u16::from(b)
    } else {
        u16::from(b - CONSTANTS) + 256
    }
}

// A node stored at a place of a row of nodes, where the row has that place.
fn keep_node(nodes: &mut [u16], i: usize, n: u16)
    ensures { nodes.new ≡ set nodes.old i n }
{
    // By index, since behind `get_mut` a proof knows no element of the row.
    if i < nodes.len() {
        nodes[i] = n;
    }
}

// The expression whose pairs begin at a place of the line, with as many levels left as given. Its nodes are kept from a place of the lent row on, as far as the row has room.
pub fn expression(
    line: &[u8],
    at: usize,
    left: usize,
    out: &mut [u16],
    used: usize,
) -> Result<Read, Stop>
    requires { (at ≤ length line.now) × (left ≤ 64) × (used < 2 ^ 63) }
    ensures { (result ≡ step_of (length line.now) (read_expr left (drop at line.now))) × IfOk result (λ e. (at + 2 * e.written.nodes ≤ e.next) × (e.next ≤ length line.now) × Kept line.now at used e.written.nodes out.old out.new) × IfErr result (λ s. (at ≤ place_of s) × (place_of s ≤ length line.now)) × (length out.new ≡ length out.old) }
{
    let mut l = left;
    // Digit j is set where the sign j + 1 levels up has its second operand to come.
    let mut pending = 0u64;
    let mut nodes = 0;
    let mut vars = 0u64;
    let mut temporal = false;
    for two in line[at..].chunks_exact(2) {
        let Some(b) = lines::pair(two[0], two[1]) else {
            return Err(Stop::Wrong(at + 2 * nodes));
        };
        let Some(operands) = places(b) else {
            return Err(Stop::Wrong(at + 2 * nodes));
        };
        if l == 0 {
            return Err(Stop::Deep(at + 2 * nodes));
        }
        keep_node(out, used + nodes, node_of(b));
        nodes += 1;
        if operands == 0 {
            vars = sets::union(vars, leaf_vars(b));
            if pending == 0 {
                return Ok(Read {
                    written: Written {
                        nodes,
                        vars,
                        temporal,
                    },
                    next: at + 2 * nodes,
                });
            }
            let z = sets::lowest(pending);
            pending = (pending >> z) - 1;
            l += z;
        } else {
            temporal = NEXT <= b || temporal;
            l -= 1;
            pending = 2 * pending + u64::from(operands - 1);
        }
    }
    Err(Stop::Wrong(at + 2 * nodes))
}
