// The lines of a record behind those of its game.
ghost use Rattle.std.specs.Prelude.{◌≡◌, ◌<◌, map, Some, None};
ghost use Rattle.text.specs.Bytes.{Wrote};
ghost use Rattle.writer.specs.Texts.{text};
ghost use Rattle.archive.specs.Records.{auction_lines, outcome_lines, rows, terms_text};
ghost use Rattle.archive.specs.Words.{end_of_word};
ghost use Rattle.auctions.specs.Outcomes.{terms};
ghost use Rattle.finished.specs.Outcomes.{told};
ghost use Rattle.notation.specs.Notation.{call_text};

use auctions::Auction;
use finished::Outcome;
use notation::{denomination_text, doubling_text, put_call};
use scoring::contracts::Contract;
use text::page::Page;
use values::letters::chair_letter;
use writer::put_tag;

fn put_contract(page: &mut Page, contract: Contract)
    ensures wrote { Wrote (terms_text (terms contract)) page.old page.new }
{
    page.put(b'0' + contract.level);
    page.put_all(denomination_text(contract.denomination).as_bytes());
    page.put_all(doubling_text(contract.doubling).as_bytes());
}

pub(crate) fn put_passed_out(page: &mut Page)
    ensures wrote { Wrote (text (outcome_lines None)) page.old page.new }
{
    put_tag(page, b"Declarer", b"");
    put_tag(page, b"Contract", b"Pass");
    put_tag(page, b"Result", b"");
    put_tag(page, b"Score", b"NS 0");
}

// Contract, tricks and score are made on the page itself, so there is no value to hand to `put_tag`.
pub(crate) fn put_outcome(page: &mut Page, outcome: Outcome)
    ensures wrote { Wrote (text (outcome_lines (Some (told outcome)))) page.old page.new }
{
    put_tag(page, b"Declarer", &[chair_letter(outcome.declarer)]);
    page.put_all(b"[Contract \"");
    put_contract(page, outcome.contract);
    page.put_all(b"\"]\n");
    page.put_all(b"[Result \"");
    page.put_decimal(outcome.tricks);
    page.put_all(b"\"]\n");
    page.put_all(b"[Score \"");
    page.put_all(b"NS ");
    page.put_decimal(outcome.score);
    page.put_all(b"\"]\n");
}

// What follows the word i of so many in rows of four: the end of its row, or a space.
fn end_of_word(i: usize, count: usize) -> u8
    requires { i < count }
    ensures end { result ≡ end_of_word i count }
{
    if i % 4 == 3 || i + 1 == count {
        b'\n'
    } else {
        b' '
    }
}

// The calls in rows of four.
fn put_calls(page: &mut Page, calls: &[u8])
    ensures wrote { Wrote (text (rows (map call_text calls.now))) page.old page.new }
{
    for (i, call) in calls.iter().enumerate() {
        put_call(page, *call);
        page.put(end_of_word(i, calls.len()));
    }
}

pub(crate) fn put_auction(page: &mut Page, auction: &Auction)
    ensures wrote { Wrote (text (auction_lines auction.now.dealer auction.now.calls.now)) page.old page.new }
{
    put_tag(page, b"Auction", &[chair_letter(auction.dealer)]);
    put_calls(page, auction.calls);
}
