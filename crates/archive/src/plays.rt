// The play of a board, trick by trick.
ghost use Rattle.std.specs.Prelude.{◌≡◌, [], ◌∷◌, length};
ghost use Rattle.archive.specs.Records.{card_by, card_text, played_rows, trick_columns, trick_rows};
ghost use Rattle.text.specs.Bytes.{Wrote};
ghost use Rattle.tricks.specs.Tricks.{tricks_in};
ghost use Rattle.writer.specs.Texts.{text};

use cards::chairs::Chair;
use cards::pack::suit;
use cards::suits::Denomination;
use notation::denomination_text;
use text::page::Page;
use tricks::Trick;
use values::letters::{chair_letter, rank_letter};
use writer::put_tag;

fn put_card(page: &mut Page, card: u8)
    ensures wrote { Wrote (card_text card) page.old page.new }
{
    if let Some(suit) = suit(card) {
        page.put_all(denomination_text(Denomination::Trumps(suit)).as_bytes());
        page.put(rank_letter(card % 13));
    }
}

// The card of a chair in a trick.
fn put_card_of(page: &mut Page, trick: &Trick, chair: Chair)
    requires { length trick.now.cards.now ≡ 4 }
    ensures wrote { Wrote (card_text (card_by trick.now.leader trick.now.cards.now chair)) page.old page.new }
{
    put_card(page, trick.cards[chair.place(trick.leader)]);
}

// A trick as a row: the opening leader's card in the first column, then clockwise.
fn put_trick(page: &mut Page, trick: &Trick, opening: Chair)
    requires { length trick.now.cards.now ≡ 4 }
    ensures wrote { Wrote (text (trick_columns trick.now.leader trick.now.cards.now opening ∷ [])) page.old page.new }
{
    let second = opening.next();
    let third = second.next();
    put_card_of(page, trick, opening);
    page.put(b' ');
    put_card_of(page, trick, second);
    page.put(b' ');
    put_card_of(page, trick, third);
    page.put(b' ');
    put_card_of(page, trick, third.next());
    page.put(b'\n');
}

fn put_tricks(page: &mut Page, trumps: Denomination, opening: Chair, cards: &[u8])
    ensures wrote { Wrote (text (trick_rows trumps opening cards.now (tricks_in cards.now))) page.old page.new }
{
    let mut leader = opening;
    for cards in cards.chunks_exact(4) {
        let trick = Trick { leader, cards };
        put_trick(page, &trick, opening);
        leader = trick.winner(trumps);
    }
}

// The play with its opening leader.
pub(crate) fn put_play(page: &mut Page, trumps: Denomination, opening: Chair, cards: &[u8])
    ensures wrote { Wrote (text (played_rows trumps opening cards.now)) page.old page.new }
{
    put_tag(page, b"Play", &[chair_letter(opening)]);
    put_tricks(page, trumps, opening, cards);
}
