// The text of a game: its four tag lines, or the line that names a fault.

#![tactic(auto)]

ghost use Rattle.std.specs.Prelude.{◌≡◌, ◌≤◌, [], ◌∷◌, length};
ghost use Rattle.text.specs.Bytes.{Wrote};
ghost use Rattle.values.specs.Letters.{vulnerability_word};
ghost use Rattle.writer.specs.Texts.{text, tag_line, suit_text, hand_text, deal_text, tag_lines, game_lines, fault_line};

use cards::boards::{Vulnerability, dealer_of, vulnerability_of};
use cards::chairs::Chair;
use cards::suits::Suit;
use faults::Fault;
use text::page::Page;
use values::letters::{chair_letter, rank_letter};

// The word for a vulnerability: a function, since the type is of crate cards, which knows no text.
fn vulnerability_word(vulnerability: Vulnerability) -> &'static [u8]
    ensures word { result.now ≡ vulnerability_word vulnerability }
{
    match vulnerability {
        Vulnerability::Neither => b"None",
        Vulnerability::NorthSouth => b"NS",
        Vulnerability::EastWest => b"EW",
        Vulnerability::Both => b"All",
    }
}

// The letters of a chair's cards of a suit, the highest first. By rule a rank is a number, so the loop goes
// over numbers.
fn put_suit(page: &mut Page, deal: &[u8; 52], chair: Chair, suit: Suit)
    ensures wrote { Wrote (suit_text deal.now chair suit) page.old page.new }
{
    let to = u8::from(chair);
    let lowest = 13 * u8::from(suit);
    for rank in (0..13u8).rev() {
        if deal[usize::from(lowest + rank)] == to {
            page.put(rank_letter(rank));
        }
    }
}

// A chair's hand: its spades, hearts, diamonds and clubs.
fn put_hand(page: &mut Page, deal: &[u8; 52], chair: Chair)
    ensures wrote { Wrote (hand_text deal.now chair) page.old page.new }
{
    put_suit(page, deal, chair, Suit::Spades);
    page.put(b'.');
    put_suit(page, deal, chair, Suit::Hearts);
    page.put(b'.');
    put_suit(page, deal, chair, Suit::Diamonds);
    page.put(b'.');
    put_suit(page, deal, chair, Suit::Clubs);
}

// The four hands, from a chair on.
fn put_hands(page: &mut Page, deal: &[u8; 52], first: Chair)
    ensures wrote { Wrote (deal_text deal.now first) page.old page.new }
{
    let second = first.next();
    let third = second.next();
    page.put(chair_letter(first));
    page.put(b':');
    put_hand(page, deal, first);
    page.put(b' ');
    put_hand(page, deal, second);
    page.put(b' ');
    put_hand(page, deal, third);
    page.put(b' ');
    put_hand(page, deal, third.next());
}

// A tag line.
pub fn put_tag(page: &mut Page, name: &[u8], value: &[u8])
    ensures wrote { Wrote (text (tag_line name.now value.now ∷ [])) page.old page.new }
{
    page.put(b'[');
    page.put_all(name);
    page.put_all(b" \"");
    page.put_all(value);
    page.put_all(b"\"]\n");
}

// The four tag lines of a board; the deal starts with the dealer. Number and deal are made on the page
// itself, so there is no value to hand to `put_tag`.
pub fn put_tags(
    page: &mut Page,
    number: u8,
    dealer: Chair,
    vulnerability: Vulnerability,
    deal: &[u8; 52],
)
    ensures wrote { Wrote (text (tag_lines number dealer vulnerability deal.now)) page.old page.new }
    ensures short { length (text (tag_lines number dealer vulnerability deal.now)) ≤ 400 }
{
    page.put_all(b"[Board \"");
    page.put_decimal(number);
    page.put_all(b"\"]\n");
    put_tag(page, b"Dealer", &[chair_letter(dealer)]);
    put_tag(page, b"Vulnerable", vulnerability_word(vulnerability));
    page.put_all(b"[Deal \"");
    put_hands(page, deal, dealer);
    page.put_all(b"\"]\n");
}

// The tag lines Board, Dealer, Vulnerable and Deal of a game; the deal starts with the dealer.
pub fn put_game(page: &mut Page, number: u8, deal: &[u8; 52])
    ensures wrote { Wrote (text (game_lines number deal.now)) page.old page.new }
    ensures short { length (text (game_lines number deal.now)) ≤ 400 }
{
    put_tags(
        page,
        number,
        dealer_of(number),
        vulnerability_of(number),
        deal,
    );
}

// The line that names a fault by its layer, its number and its offset.
pub fn put_fault(page: &mut Page, fault: Fault)
    ensures wrote { Wrote (text (fault_line fault ∷ [])) page.old page.new }
    ensures short { length (text (fault_line fault ∷ [])) ≤ 100 }
{
    page.put_all(b"% fault ");
    page.put_decimal(fault.layer());
    page.put(b' ');
    page.put_decimal(fault.number());
    page.put(b' ');
    page.put_decimal(fault.offset());
    page.put(b'\n');
}
