// An expression in prefix order, spelt as on cards without blanks. Only safety is promised here.
#![tactic(auto)]

ghost use Rattle.std.specs.Prelude.{◌<◌, ◌≤◌, IsSome};

use wording::page::Page;

// What a node is, with its sign as on cards.
#[derive(Clone, Copy)]
enum Node {
    Variable(u8),
    Constant(char),
    OnePlace(char),
    TwoPlace(char),
}

// The node of a code of frames.
fn node_of(code: u8) -> Option<Node> {
    match code {
        0..=0x3f => Some(Node::Variable(code)),
        0x40 => Some(Node::Constant('0')),
        0x41 => Some(Node::Constant('1')),
        0x42 => Some(Node::OnePlace('~')),
        0x43 => Some(Node::TwoPlace('&')),
        0x44 => Some(Node::TwoPlace('+')),
        0x45 => Some(Node::OnePlace('X')),
        0x46 => Some(Node::OnePlace('F')),
        0x47 => Some(Node::OnePlace('G')),
        0x48 => Some(Node::TwoPlace('U')),
        0x49 => Some(Node::TwoPlace('W')),
        _ => None,
    }
}

// The two-place operators that are open, at most one a level, in fixed memory: of each the sign that stands behind the operand at hand.
#[derive(Drop)]
struct Open {
    signs: [char; decks::LEVELS],
    count: usize,
    ghost within: { count ≤ 32 },
}

impl Open {
    fn push(&mut self, sign: char) {
        if self.count < decks::LEVELS {
            self.signs[self.count] = sign;
            self.count += 1;
        }
    }

    fn pop(&mut self) -> Option<char>
        ensures { IsSome result → self.new.count < self.old.count }
    {
        if self.count == 0 {
            return None;
        }
        self.count -= 1;
        Some(self.signs[self.count])
    }
}

// Behind an operand: the operators whose second operand it was are closed, and the one whose first it was is spelt.
fn close(page: &mut Page, open: &mut Open) {
    while let Some(sign) = open.pop() {
        page.put(sign);
        if sign != ')' {
            open.push(')');
            return;
        }
    }
}

fn put_node(page: &mut Page, open: &mut Open, node: Node) {
    match node {
        Node::Variable(v) => {
            page.put(format_args!("V{v}"));
            close(page, open);
        }
        Node::Constant(sign) => {
            page.put(sign);
            close(page, open);
        }
        Node::OnePlace(sign) => page.put(sign),
        Node::TwoPlace(sign) => {
            page.put('(');
            open.push(sign);
        }
    }
}

// The expression whose pairs stand from the second pair of a frame on.
pub fn expression(page: &mut Page, frame: &[u8]) {
    let mut open = Open {
        signs: ['('; decks::LEVELS],
        count: 0,
    };
    for pair in frame.chunks(2).skip(1) {
        if let Some(node) = lines::pair_at(pair, 0).and_then(node_of) {
            put_node(page, &mut open, node);
        }
    }
}
