// Reading a deal file: the lines of one game, its tags and what they say.

#![tactic(auto)]

ghost use Rattle.std.specs.Prelude.{◌≡◌};
ghost use Rattle.lines.specs.Lines.{lines};
ghost use Rattle.tags.specs.Views.{found};
ghost use Rattle.reader.specs.Reading.{is_dealer, is_vulnerability, number_read, tags_read, values_read, file_read};
ghost use Rattle.reader.specs.Views.{told, headers, number_in, deal_in};

use cards::boards::{dealer_of, vulnerability_of};
use faults::Fault;
use lines::check_lines;
use tags::{Found, check_tags, find};
use values::deals::read_deal;
use values::letters::{dealer_named, vulnerability_named};
use values::numbers::board_number;

// The four tags of a game.
#[derive(Clone, Copy)]
struct Header<'a> {
    board: Found<'a>,
    dealer: Found<'a>,
    vulnerable: Found<'a>,
    deal: Found<'a>,
}

// Layer 2 of the reader.
fn read_tags<'a>(file: &'a [u8]) -> Result<Header<'a>, Fault>
    ensures answer { headers result ≡ tags_read (lines 0 file.now) }
{
    check_tags(file)?;
    Ok(Header {
        board: find(file, b"Board")?,
        dealer: find(file, b"Dealer")?,
        vulnerable: find(file, b"Vulnerable")?,
        deal: find(file, b"Deal")?,
    })
}

// Does the text name the board's dealer?
fn is_dealer(value: &[u8], number: u8) -> bool
    ensures dealer { result ≡ is_dealer value.now number }
{
    dealer_named(value) == Some(dealer_of(number))
}

// Does the text name the board's vulnerability?
fn is_vulnerability(value: &[u8], number: u8) -> bool
    ensures vulnerability { result ≡ is_vulnerability value.now number }
{
    vulnerability_named(value) == Some(vulnerability_of(number))
}

// The board number, which the dealer and the vulnerability have to fit.
fn read_number(header: Header) -> Result<u8, Fault>
    ensures answer { result ≡ number_read (found header.entry.board) (found header.entry.dealer) (found header.entry.vulnerable) }
{
    let number = board_number(header.board.value).ok_or(Fault::NoBoardNumber {
        line: header.board.line,
    })?;
    if !is_dealer(header.dealer.value, number) {
        return Err(Fault::WrongDealer {
            line: header.dealer.line,
        });
    }
    if !is_vulnerability(header.vulnerable.value, number) {
        return Err(Fault::WrongVulnerability {
            line: header.vulnerable.line,
        });
    }
    Ok(number)
}

// Layer 3 of the reader.
fn read_values(header: Header, deal: &mut [u8; 52]) -> Result<u8, Fault>
    ensures answer { result ≡ number_in (values_read (told header.entry)) }
    ensures bytes { deal.new ≡ deal_in deal.old (values_read (told header.entry)) }
{
    let number = read_number(header)?;
    read_deal(header.deal, deal)?;
    Ok(number)
}

// Reads a file of one game: answers its board number, and byte c of `deal` then names the chair that
// gets the card c. By rule the 52 bytes are the caller's, and a refusal leaves them as they were.
pub fn read(file: &[u8], deal: &mut [u8; 52]) -> Result<u8, Fault>
    ensures answer { result ≡ number_in (file_read file.now) }
    ensures bytes { deal.new ≡ deal_in deal.old (file_read file.now) }
{
    check_lines(file)?;
    let header = read_tags(file)?;
    read_values(header, deal)
}
