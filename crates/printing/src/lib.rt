// What the program prints, each reply with every byte promised: what was asked for, or one frame FF.
#![tactic(auto)]

ghost use Rattle.texts.specs.Texts.{filled};
ghost use Rattle.frames.specs.Read.{read_deck};
ghost use Rattle.printing.specs.Printed.{refusal_frame, Prints, printed_into, deck_printed_into, replied, cone_line, cone_printed_into, verdict_into};

use replies::CountReply;
use station::Form;

// The frame FF into a buffer that has room for it, and its length.
pub fn put_refusal(number: u64, text: u64, place: u64, out: &mut [u8]) -> usize
    ensures { Prints (filled (refusal_frame number text place) out.old) result out.new }
{
    if out.len() < 15 {
        return 0;
    }
    writing::put_byte(out, 255);
    writing::put_number(&mut out[2..], 1, number);
    writing::put_number(&mut out[4..], 1, text);
    writing::put_number(&mut out[6..], 4, place);
    writing::put_end(&mut out[14..]);
    15
}

// What was written and stands in the buffer's first bytes, or one frame FF.
fn put_reply(r: CountReply, bytes: u64, out: &mut [u8]) -> usize
    ensures { Prints (replied r bytes out.old) result out.new }
{
    if r.number == 0 {
        return bytes as usize;
    }
    put_refusal(r.number, r.text, r.place, out)
}

// The pieces of a deck of a form, or one frame FF.
pub fn pieces<F: Form>(text: &[u8], out: &mut [u8]) -> usize
    ensures { Prints (printed_into (F.outcome text.now) out.old) result out.new }
{
    let r = station::reduce::<F>(text, out);
    put_reply(r, r.second, out)
}

// A deck of a form as frames, or one frame FF.
pub fn deck<F: Form>(text: &[u8], out: &mut [u8]) -> usize
    ensures { Prints (deck_printed_into (F.outcome text.now) out.old) result out.new }
{
    let r = station::write::<F>(text, out);
    put_reply(r, r.first, out)
}

// A set in sixteen digits, a blank, its size, and the end of the line, into a buffer that has room for them, and their length.
fn put_cone(set: u64, size: u64, out: &mut [u8]) -> usize
    ensures { Prints (filled (cone_line set size) out.old) result out.new }
{
    let mut buffer = itoa::Buffer::new();
    let digits = buffer.format(size % 100).as_bytes();
    let end = 17 + digits.len();
    if out.len() <= end {
        return 0;
    }
    writing::put_number(out, 8, set);
    out[16] = b' ';
    out[17..end].copy_from_slice(digits);
    writing::put_end(&mut out[end..]);
    end + 1
}

// The cone of a set in a deck of frames and its size, or one frame FF.
pub fn cone(text: &[u8], s: u64, out: &mut [u8]) -> usize
    ensures { Prints (cone_printed_into (read_deck text.now) s out.old) result out.new }
{
    let r = station::cone(text, s);
    if r.number != 0 {
        return put_refusal(r.number, r.text, r.place, out);
    }
    put_cone(r.first, r.second, out)
}

// The verdict on a claim, as one frame FF.
pub fn check(deck: &[u8], claim: &[u8], out: &mut [u8]) -> usize
    ensures { Prints (verdict_into deck.now claim.now out.old) result out.new }
{
    let r = station::check(deck, claim);
    put_refusal(r.number, r.text, r.place, out)
}
