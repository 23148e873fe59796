// Runs the sets and the terms at their limits, and prints what they answer, one answer to a line.
#![tactic(auto)]

use std::io;

fn word(yes: bool) -> &'static str {
    if yes { "yes" } else { "no" }
}

// Puts n copies of the node in front, as far as there is room, and answers the room behind them.
fn put(room: &mut [u16], n: usize, node: u16) -> &mut [u16] {
    let n = n.min(room.len());
    let (front, behind) = room.split_at_mut(n);
    front.fill(node);
    behind
}

// What terms answers of the expression at `at`.
fn print_expression<R: Print>(rt: &R, nodes: &[u16], at: usize) -> io::Result<()> {
    let end = terms::end_of(nodes, at);
    println!(rt; "  ends at {end}")?;
    if at < nodes.len() && terms::is_two_place(nodes[at]) {
        println!(rt; "  second operand at {}", terms::second(nodes, at))?;
    }
    println!(rt; "  levels {}", terms::levels_of(nodes, at))?;
    println!(rt; "  writes {:016x}", terms::written_in(nodes, at, end))?;
    println!(rt; "  temporal: {}", word(terms::has_temporal(nodes, at, end)))
}

// The sets of the first, the last and no variable.
fn print_single<R: Print>(rt: &R) -> io::Result<()> {
    let last = sets::variable(63);
    println!(rt; "V0 alone {:016x}", sets::variable(0))?;
    println!(rt; "V63 alone {last:016x}")?;
    println!(rt; "  the lowest V{}", sets::lowest(last))?;
    println!(rt; "V64 has no room: {:016x}", sets::variable(64))
}

// The set of all variables.
fn print_all<R: Print>(rt: &R) -> io::Result<()> {
    let last = sets::variable(63);
    let all = sets::union(last, 0x7fff_ffff_ffff_ffff);
    println!(rt; "all variables {all:016x}")?;
    println!(rt; "  their number {}", sets::size(all))?;
    println!(rt; "  the lowest V{}", sets::lowest(all))?;
    println!(rt; "  V63 among them: {}", word(sets::member(all, 63)))?;
    println!(rt; "  V64 among them: {}", word(sets::member(all, 64)))?;
    println!(rt; "  within V63: {}", word(sets::subset(all, last)))?;
    println!(rt; "  without V63 {:016x}", sets::without(all, last))
}

// The empty set.
fn print_nothing<R: Print>(rt: &R) -> io::Result<()> {
    let first = sets::variable(0);
    let nothing = sets::meet(first, sets::variable(63));
    println!(rt; "V0 and V63 meet in {nothing:016x}")?;
    println!(rt; "  their number {}", sets::size(nothing))?;
    println!(rt; "  the lowest, none {}", sets::lowest(nothing))?;
    println!(rt; "  within V0: {}", word(sets::subset(nothing, first)))
}

// The property of the worked deck, (G~V1&FV2).
fn print_worked<R: Print>(rt: &R) -> io::Result<()> {
    let nodes = [terms::AND, terms::ALWAYS, terms::NOT, 1, terms::FUTURE, 2];
    println!(rt; "(G~V1&FV2)")?;
    print_expression(rt, &nodes, 0)
}

// 31 times `~` before V63.
fn print_deep<R: Print>(rt: &R) -> io::Result<()> {
    let mut nodes = [terms::NOT; 32];
    nodes[31] = 63;
    println!(rt; "31 times ~ before V63")?;
    print_expression(rt, &nodes, 0)
}

// 128 nodes: four times `&`, each with `~` down to level 32 before V60 as its first operand, and (V61UXXXV63) as the
// last second operand.
fn print_property<R: Print>(rt: &R) -> io::Result<()> {
    let mut nodes = [0u16; 128];
    let mut room = &mut nodes[..];
    for k in 0..4 {
        room = put(room, 1, terms::AND);
        room = put(room, 30 - k, terms::NOT);
        room = put(room, 1, 60);
    }
    room = put(room, 1, terms::UNTIL);
    room = put(room, 1, 61);
    room = put(room, 3, terms::NEXT);
    put(room, 1, 63);
    println!(rt; "a property of 128 nodes")?;
    print_expression(rt, &nodes, 0)
}

// The 2,048 nodes of 64 right sides: each of 32 nodes, one for each variable.
fn print_equations<R: Print>(rt: &R) -> io::Result<()> {
    let mut nodes = [terms::NOT; 2048];
    for v in 0..64u16 {
        nodes[32 * usize::from(v) + 31] = v;
    }
    let end = nodes.len();
    println!(rt; "nodes of 64 right sides {end}")?;
    println!(rt; "  write {:016x}", terms::written_in(&nodes, 0, end))?;
    println!(rt; "  temporal: {}", word(terms::has_temporal(&nodes, 0, end)))?;
    println!(rt; "the last of them")?;
    print_expression(rt, &nodes, 2016)?;
    println!(rt; "behind the last")?;
    print_expression(rt, &nodes, 2048)
}

fn main(rt: HostRuntime) -> io::Result<()> {
    print_single(&rt)?;
    print_all(&rt)?;
    print_nothing(&rt)?;
    print_worked(&rt)?;
    print_deep(&rt)?;
    print_property(&rt)?;
    print_equations(&rt)
}
