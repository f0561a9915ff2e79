// Calls as text: Pass, X, XX, and the bids from 1C to 7NT. Calls are bytes, and denominations and doublings
// are types of crates below, so these are functions and no impls of FromStr or Display.

#![tactic(auto)]

ghost use Rattle.std.specs.Prelude.{◌≡◌};
ghost use Rattle.text.specs.Bytes.{Wrote};
ghost use Rattle.notation.specs.Laws.{NamedOnly, ReadsBack};
ghost use Rattle.notation.specs.Notation.{bid_named, call_named, call_text, denomination_named, denomination_text, doubling_text};

use cards::calls::{DOUBLE, PASS, REDOUBLE, bid, denomination, level};
use cards::suits::{Denomination, Suit};
use scoring::contracts::Doubling;
use text::page::Page;

// The denomination that a word names.
fn denomination_named(word: &[u8]) -> Option<Denomination>
    ensures denomination { result ≡ denomination_named word.now }
{
    match word {
        b"C" => Some(Denomination::Trumps(Suit::Clubs)),
        b"D" => Some(Denomination::Trumps(Suit::Diamonds)),
        b"H" => Some(Denomination::Trumps(Suit::Hearts)),
        b"S" => Some(Denomination::Trumps(Suit::Spades)),
        b"NT" => Some(Denomination::NoTrump),
        _ => None,
    }
}

// The bid that a digit and a denomination name.
fn bid_named(word: &[u8]) -> Option<u8>
    ensures bid { result ≡ bid_named word.now }
{
    let [digit, rest @ ..] = word else {
        return None;
    };
    bid(digit.saturating_sub(b'0'), denomination_named(rest)?)
}

// The call that a word names. Every call is named by its text, and by nothing else.
pub fn call_named(word: &[u8]) -> Option<u8>
    ensures call { result ≡ call_named word.now }
    ensures reads_back { ReadsBack }
    ensures named_only { NamedOnly }
{
    match word {
        b"Pass" => Some(PASS),
        b"X" => Some(DOUBLE),
        b"XX" => Some(REDOUBLE),
        _ => bid_named(word),
    }
}

// The letters of a denomination.
pub fn denomination_text(denomination: Denomination) -> &'static str
    ensures text { result.now ≡ denomination_text denomination }
{
    match denomination {
        Denomination::Trumps(Suit::Clubs) => "C",
        Denomination::Trumps(Suit::Diamonds) => "D",
        Denomination::Trumps(Suit::Hearts) => "H",
        Denomination::Trumps(Suit::Spades) => "S",
        Denomination::NoTrump => "NT",
    }
}

// How far a contract is doubled, as it is written behind its bid.
pub fn doubling_text(doubling: Doubling) -> &'static str
    ensures text { result.now ≡ doubling_text doubling }
{
    match doubling {
        Doubling::Undoubled => "",
        Doubling::Doubled => "X",
        Doubling::Redoubled => "XX",
    }
}

// Puts the text of a call on a page; a number that is no call has none.
pub fn put_call(page: &mut Page, call: u8)
    ensures wrote { Wrote (call_text call) page.old page.new }
{
    match call {
        PASS => page.put_all(b"Pass"),
        DOUBLE => page.put_all(b"X"),
        REDOUBLE => page.put_all(b"XX"),
        _ => {
            if let Some((level, denomination)) = level(call).zip(denomination(call)) {
                page.put(b'0' + level);
                page.put_all(denomination_text(denomination).as_bytes());
            }
        }
    }
}
