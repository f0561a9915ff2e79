// Hears auctions from standard input: rules on every call, and prints what each auction comes to.

#![tactic(auto)]

ghost use Rattle.std.specs.Prelude.{◌≡◌, ◌+◌, ◌<◌, false, length, is_ok, if◌then◌else◌};
ghost use Rattle.text.specs.Bytes.{written};

use auctions::{Auction, Standing};
use cards::chairs::Chair;
use input::{MOST, fill};
use notation::{call_named, denomination_text, doubling_text};
use rulings::Irregularity;
use std::io;
use std::str::from_utf8;
use text::bytes::Bytes;
use values::letters::{chair_letter, dealer_named};

// The longest auction.
const LONGEST: usize = 319;

// An auction, as far as it was heard.
#[derive(Clone, Copy)]
struct Heard {
    dealer: Chair,
    standing: Standing,
    calls: Bytes<LONGEST>,
}

impl Heard {
    fn new(dealer: Chair) -> Heard {
        Heard {
            dealer,
            standing: Standing::start(dealer),
            calls: Bytes::new(),
        }
    }

    // Has the auction ended? With 319 calls it has in any case.
    fn is_over(&self) -> bool
        ensures room { result ≡ false → length (written self.now.calls) < 319 }
    {
        self.calls.as_slice().len() >= LONGEST || self.standing.is_over()
    }

    // Rules on what a word says for the chair in turn, and keeps it if it is a lawful call.
    fn call(&mut self, word: &str) -> Result<(), Irregularity>
        requires { length (written self.old.calls) < 319 }
        ensures kept { length (written self.new.calls) ≡ length (written self.old.calls) + (if is_ok result then 1 else 0) }
    {
        let call = call_named(word.as_bytes()).ok_or(Irregularity::NoSuchAct)?;
        self.standing.ruling(call)?;
        self.calls.put(call);
        self.standing = self.standing.after(call);
        Ok(())
    }

    fn declarer(&self) -> Option<Chair> {
        let auction = Auction {
            dealer: self.dealer,
            calls: self.calls.as_slice(),
        };
        auction.declarer()
    }
}

fn letter(chair: Chair) -> char {
    char::from(chair_letter(chair))
}

// Prints the ruling on a call by the chair in turn.
fn print_ruling(rt: &impl Print, auction: &mut Heard, word: &str) -> io::Result<()> {
    if auction.is_over() {
        return println!(rt; "- {word} the auction is over");
    }
    let chair = letter(auction.standing.turn);
    match auction.call(word) {
        Ok(()) => println!(rt; "{chair} {word} ok"),
        Err(irregularity) => {
            let number = irregularity.number();
            println!(rt; "{chair} {word} {number} {irregularity}")
        }
    }
}

// Prints what an auction has come to, and an empty line.
fn print_outcome(rt: &impl Print, auction: &Heard) -> io::Result<()> {
    let standing = auction.standing;
    if !auction.is_over() {
        let turn = letter(standing.turn);
        return println!(rt; "{turn} to call\n");
    }
    if let Some(contract) = standing.contract()
        && let Some(declarer) = auction.declarer()
    {
        let level = contract.level;
        let denomination = denomination_text(contract.denomination);
        let doubling = doubling_text(contract.doubling);
        println!(rt;
            "{level}{denomination}{doubling} by {}, {} leads\n",
            letter(declarer),
            letter(declarer.next())
        )
    } else {
        println!(rt; "passed out\n")
    }
}

// Hears auctions word by word: a chair's letter opens one, and each other word is a call.
fn hear(rt: &impl Print, text: &str) -> io::Result<()> {
    let mut heard = None;
    for word in text.split_ascii_whitespace() {
        if let Some(dealer) = dealer_named(word.as_bytes()) {
            if let Some(auction) = &heard {
                print_outcome(rt, auction)?;
            }
            println!(rt; "dealer {word}")?;
            heard = Some(Heard::new(dealer));
        } else if let Some(auction) = &mut heard {
            print_ruling(rt, auction, word)?;
        } else {
            println!(rt; "% {word} there is no dealer")?;
        }
    }
    match &heard {
        Some(auction) => print_outcome(rt, auction),
        None => Ok(()),
    }
}

// Puts a question mark in place of each byte that can neither be printed nor parts words, so that
// every word can be printed.
fn mask(bytes: &mut [u8]) {
    for byte in bytes.iter_mut() {
        match *byte {
            b' '..=b'~' | b'\n' | b'\r' | b'\t' => {}
            _ => *byte = b'?',
        }
    }
}

fn main(rt: HostRuntime) -> anyhow::Result<()> {
    let mut bytes = [0; MOST];
    let length = fill(&mut rt.stdin(), &mut bytes)?;
    if length == MOST {
        println!(rt; "% the input is longer than 65535 bytes")?;
        return Ok(());
    }
    mask(&mut bytes);
    hear(&rt, from_utf8(&bytes[0..length])?)?;
    Ok(())
}
