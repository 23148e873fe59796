// What each number of a refusal means (RULES 7.2), in a line, and what to do.

// By number: what it means, and what to do, which ends its last line.
fn words(number: u64) -> (&'static str, &'static str) {
    match number {
        1 => (
            "text over 64,800 bytes",
            "\
Take out comments and the blanks at the ends of cards, or give conjuncts of the property in decks
of their own. Frames within the limits are far shorter: see whether the file holds two texts.
",
        ),
        2 => (
            "byte outside 32..126 on a card, tab included, comments too",
            "\
A card holds the bytes 32 to 126 alone: no tab, no byte 13 at its end, no accented letter.
Put blanks or a plain character for the byte at the mark, which is shown as ?, and see that
the statement still ends by column 72.
",
        ),
        3 => (
            "card over 80 columns",
            "\
A card has at most 80 columns, blanks at its end counted. End the text by column 72 and go on
in column 7 of a further card that has a character other than blank and 0 in column 6.
",
        ),
        4 => (
            "columns 1 to 5 not blank, comments apart",
            "\
A statement stands in columns 7 to 72. Leave columns 1 to 5 blank and move the text to the
right, or make the card a comment with C or * in column 1.
",
        ),
        5 => (
            "columns 73 to 80 wrong, comments apart",
            "\
Columns 73 to 80 are all blank or exactly eight digits; a statement is not read there. Go on
with its text in column 7 of a further card that has a character other than blank and 0 in
column 6, or mend the card's number.
",
        ),
        6 => (
            "continuation with no statement open",
            "\
A character other than blank and 0 in column 6 continues the statement above, and none is
open here: none was begun, or a blank card closed it. Leave column 6 blank if the card begins a
statement, or take out the blank card. A comment may stand between: it closes nothing.
",
        ),
        7 => (
            "twentieth continuation",
            "\
A statement has its first card and at most 19 more, comments between them not counted. Fill
columns 7 to 72 of each card, leave out blanks, or write a shorter expression.
",
        ),
        8 => (
            "no statement of the form due here",
            "\
Statements stand in this order, in capital letters:
  VARS n           n from 0 to 64; the variables are V0 to Vn-1
  INIT bits        n digits 0 or 1, the first for V0; one INIT or more
  Vi=expression    any number of them
  PROP expression  one
  END              and no statement behind it
An expression is 0, 1, a variable, one of ~ X F G before an expression, or one of (e&e), (e+e),
(eUe), (eWe). Each of & + U W has its own parentheses, and nothing else has: (V1) is wrong.
Numbers have one or two digits and no leading zero. Blanks mean nothing. The statement at fault
begins on the card shown and may go on behind it, past comments; a blank card ends it.
",
        ),
        9 => (
            "variable or state bit outside the set",
            "\
On cards VARS n gives the variables V0 to Vn-1; in frames the bits of 01 give them. Use these
alone, on the left of an equation too, or make the set larger. A state has no other bit.
",
        ),
        10 => (
            "X F G U W in an equation",
            "\
An equation gives a variable's next value from this state and uses ~ & + only. X F G U W belong
into the property.
",
        ),
        11 => (
            "level 33",
            "\
A whole expression has level 1, an operand one more than its operator, and levels go to 32.
Join long chains evenly, as ((a&b)&(c&d)) for (a&(b&(c&d))), and drop double ~.
",
        ),
        12 => (
            "more than 64 initial states, counted before equal ones drop",
            "\
A deck has at most 64 initial states, and an equal one counts. Take out those that stand twice.
",
        ),
        13 => (
            "more than 256 equations",
            "\
A deck has at most 256 equations. Take out those of a variable that stand twice, or leave out
variables that the property does not need.
",
        ),
        14 => (
            "too many nodes",
            "\
A constant, a variable or an operator is one node. All equations together have at most 2,048,
the property has at most 128. Write shorter expressions, or give conjuncts in decks of their own.
",
        ),
        15 => (
            "a variable has no equation",
            "\
Each variable of the set needs an equation. One that may take either value has two: Vi=0 and Vi=1.
",
        ),
        16 => (
            "frames not as they must be, equal 02s, c = 0 or p+c > 1,024",
            "\
A deck is these lines, in this order, each ended by byte 10:
  01 set         the variables, 16 digits, the last bit for V0
  02 state       an initial state, 16 digits; one or more, no two equal
  03 vv code     an equation of variable vv, 00 to 3F, by rising variable
  04 code        the property
  05 nnnn        the number of lines above it, 4 digits
A claim is 11 pppp cccc with c at least 1 and p+c at most 1,024; p+c lines 12 state; 15 nnnn.
A code stands in prefix order: 00 to 3F variables, 40 0, 41 1, 42 ~, 43 &, 44 +, 45 X, 46 F,
47 G, 48 U, 49 W. Digits are hexadecimal, 0 to 9 and A to F, two a byte, without blanks. No line
follows the last.
",
        ),
        17 => (
            "the output needs more bytes than lent",
            "\
The deck itself is in order. Give conjuncts of its property in decks of their own.
",
        ),
        20 => (
            "claim's first state is not initial",
            "\
The run begins in one of the deck's initial states, its lines 02. Let the claim begin there.
",
        ),
        21 => (
            "a step not allowed",
            "\
In a step each variable takes the value that one of its equations has in the old state. Mend the
state that the step enters, or the one that it leaves. The last step returns to state p.
",
        ),
        22 => (
            "the property holds on the claimed run",
            "\
The claim is a run of the deck, and the property holds on it, so it shows no fault. Claim a run on
which the property fails.
",
        ),
        _ => ("", ""),
    }
}

pub fn meaning(number: u64) -> &'static str {
    let (meaning, _) = words(number);
    meaning
}

pub fn advice(number: u64) -> &'static str {
    let (_, advice) = words(number);
    advice
}
