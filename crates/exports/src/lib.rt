// Exports: a reply as one word and two counts, for C.
#![tactic(auto)]

ghost use Rattle.std.specs.Prelude.{◌≡◌, length};
ghost use Rattle.exports.specs.Exported.{packed, Packs, CountsPack, Exported};

// Number, text and place in one word.
pub fn packed(number: u64, text: u64, place: u64) -> u64
    requires { Packs number text place }
    ensures { result ≡ packed number text place }
{
    number + 256 * text + 65536 * place
}

// The two counts of a reply, and its number, text and place in one word.
pub fn export(s: replies::CountReply, counts: &mut [u64]) -> u64
    requires { (length counts.old ≡ 2) × CountsPack s }
    ensures { Exported s result counts.new }
{
    counts[0] = s.first;
    counts[1] = s.second;
    packed(s.number, s.text, s.place)
}
