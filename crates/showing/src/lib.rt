// A card or line of a text, shown under a ruler with a mark at the column at fault. Only safety is promised here.
#![tactic(auto)]

ghost use Rattle.std.specs.Prelude.{◌≤◌};

use wording::page::Page;

// The columns of a card or line that are shown, the first one too many included.
const SHOWN: usize = 81;

// The columns of a card, tens above units.
const RULER: &str =
    "         1         2         3         4         5         6         7         8
12345678901234567890123456789012345678901234567890123456789012345678901234567890
";

// Line n of a text, counted from 1; an empty one behind the last.
pub fn line_of(text: &[u8], n: u64) -> &[u8] {
    let mut rest = text;
    for _ in 1..n {
        let behind = &rest[ends::line_end(rest, 0)..];
        if behind.is_empty() {
            return &[];
        }
        rest = &behind[1..];
    }
    &rest[..ends::line_end(rest, 0)]
}

// A byte as it is shown.
fn shown(b: u8) -> u8 {
    match b {
        b' '..=b'~' => b,
        _ => b'?',
    }
}

// The line, as much as is shown of it.
pub fn put_line(page: &mut Page, line: &[u8]) {
    for b in line.iter().take(SHOWN) {
        page.byte(shown(*b));
    }
    page.byte(b'\n');
}

// The mark under a column.
fn put_mark(page: &mut Page, column: usize) {
    if column > SHOWN {
        page.put(format_args!("(at column {column}, behind what is shown)\n"));
    } else {
        page.put(format_args!("{:>column$} column {column}\n", '^'));
    }
}

// A line under a ruler, and a mark at its column at fault, where it is known.
pub fn put_ruled(page: &mut Page, line: &[u8], column: Option<usize>) {
    page.put(RULER);
    put_line(page, line);
    if let Some(column) = column {
        put_mark(page, column);
    }
    let columns = line.len();
    if columns > SHOWN {
        page.put(format_args!("(it has {columns} columns; the first {SHOWN} are shown)\n"));
    }
}

// ---- columns

// The first byte that no card may hold.
fn first_outside(card: &[u8]) -> Option<usize> {
    card.iter().position(|b| shown(*b) != *b).map(|i| i + 1)
}

// The first column from `first` to `last` that is not blank.
fn first_filled(card: &[u8], first: usize, last: usize) -> Option<usize>
    requires { 1 ≤ first }
{
    (first..=last).find(|c| firstpass::column(card, *c) != b' ')
}

// The first of columns 73 to 80 that is no digit.
fn first_no_digit(card: &[u8]) -> Option<usize> {
    (73..=80).find(|c| !firstpass::column(card, *c).is_ascii_digit())
}

// How many of columns 73 to 80 are digits.
fn digits(card: &[u8]) -> usize {
    (73..=80)
        .filter(|c| firstpass::column(card, *c).is_ascii_digit())
        .count()
}

// The first of columns 73 to 80 that is wrong: of a number the first that is no digit, of other text its first.
fn first_wrong(card: &[u8]) -> Option<usize> {
    if digits(card) > 4 {
        first_no_digit(card)
    } else {
        first_filled(card, 73, 80)
    }
}

// The column at fault of a card, where it is known.
pub fn column_of(number: u64, card: &[u8]) -> Option<usize> {
    match number {
        2 => first_outside(card),
        3 => Some(SHOWN),
        4 => first_filled(card, 1, 5),
        5 => first_wrong(card),
        6 | 7 => Some(6),
        _ => None,
    }
}
