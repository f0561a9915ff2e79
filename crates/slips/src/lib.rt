// Score slips: one row of a sheet, written as a line of three numbers.

#![tactic(auto)]

ghost use Rattle.std.specs.Prelude.{◌≡◌};
ghost use Rattle.slips.specs.Slips.{is_space, word_in, behind_word, signed, slip};

use runs::{AllBut, Alphabet, run_length};
use sheets::rows::Row;
use values::numbers::natural;

// The largest score that is read. What `natural` has bounded `as` keeps; `try_from` would add a refusal
// that never comes.
const LARGEST: u32 = i32::MAX as u32;

struct Spaces;

impl Alphabet for Spaces {
    ghost admits = { is_space };

    fn contains(byte: u8) -> bool {
        byte == b' '
    }
}

// The first word of a text, and what follows it.
fn next_word<'a>(text: &'a [u8]) -> (&'a [u8], &'a [u8])
    ensures word { result.0.now ≡ word_in text.now }
    ensures rest { result.1.now ≡ behind_word text.now }
{
    let (_, words) = text.split_at(run_length::<Spaces>(text));
    words.split_at(run_length::<AllBut<b' '>>(words))
}

// A number with a minus sign or without.
fn signed(word: &[u8]) -> Option<i32>
    ensures number { result ≡ signed word.now }
{
    match word {
        [b'-', digits @ ..] => Some(-(natural(digits, LARGEST)? as i32)),
        _ => Some(natural(word, LARGEST)? as i32),
    }
}

// The row that a slip says: two pairs and a score, and nothing more.
pub fn read_slip(text: &[u8]) -> Option<Row>
    ensures row { result ≡ slip text.now }
{
    let (first, rest) = next_word(text);
    let (second, rest) = next_word(rest);
    let (third, rest) = next_word(rest);
    let ns = natural(first, u32::from(u16::MAX))? as u16;
    let ew = natural(second, u32::from(u16::MAX))? as u16;
    let score = signed(third)?;
    let (fourth, _) = next_word(rest);
    if !fourth.is_empty() {
        return None;
    }
    Some(Row { ns, ew, score })
}
