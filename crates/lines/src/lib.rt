// Hexadecimal pairs, and the numbers that pairs give.
#![tactic(auto)]

ghost use Rattle.std.specs.Prelude.{◌≡◌, ◌*◌, ◌≤◌, [], ◌∷◌, length, drop};
ghost use Rattle.frames.specs.Hex.{digit_of, byte_of, number};
ghost use Rattle.frames.specs.Read.{kind_of};
ghost use Rattle.lines.specs.Numbers.{digit_read, pair_read, number_read, both_zero, count_is};

// Four characters `0`, each worth 256 times the one before it.
const ZEROS: u64 = 0x3030_3030;

// The number of a digit.
fn digit_of(c: u8) -> Option<u8>
    ensures { result ≡ digit_read (digit_of c) }
{
    match c {
        b'0'..=b'9' => Some(c - b'0'),
        b'A'..=b'F' => Some(c - b'A' + 10),
        _ => None,
    }
}

// The byte of a pair.
pub fn pair(high: u8, low: u8) -> Option<u8>
    ensures { result ≡ pair_read (byte_of high low) }
{
    Some(16 * digit_of(high)? + digit_of(low)?)
}

// The byte of the pair that begins at a place of the line.
pub fn pair_at(line: &[u8], at: usize) -> Option<u8>
    ensures { result ≡ pair_read (kind_of (drop at line.now)) }
{
    let [high, low, ..] = line.get(at..)? else {
        return None;
    };
    pair(*high, *low)
}

// Whether four characters are all `0`. They are looked at in one comparison.
fn zeros(a: u8, b: u8, c: u8, d: u8) -> bool
    ensures { result ≡ both_zero (a ∷ b ∷ c ∷ d ∷ []) }
{
    let one = u64::from(a) + 256 * u64::from(b);
    let other = u64::from(c) + 256 * u64::from(d);
    one + 65536 * other == ZEROS
}

// The number of exactly k pairs from a place of the line to its end.
pub fn number_at(line: &[u8], at: usize, k: usize) -> Option<u64>
    requires { (at ≤ 8) × (1 ≤ k) × (k ≤ 8) }
    ensures { result ≡ number_read (number k (drop at line.now)) }
{
    if line.len() != at + 2 * k {
        return None;
    }
    let mut digits = &line[at..];
    while let [a, b, c, d, rest @ ..] = digits {
        if !zeros(*a, *b, *c, *d) {
            break;
        }
        digits = rest;
    }
    let mut value = 0u64;
    for two in digits.chunks_exact(2) {
        value = 256 * value + u64::from(pair(two[0], two[1])?);
    }
    Some(value)
}

// Whether the number of two bytes behind the kind counts the frames before line n.
pub fn counts(line: &[u8], n: u64) -> bool
    requires { 1 ≤ n }
    ensures { result ≡ count_is n (drop 2 line.now) }
{
    number_at(line, 2, 2) == Some(n - 1)
}
