// What the program answers to a deal file.

#![tactic(auto)]

ghost use Rattle.std.specs.Prelude.{◌≡◌};
ghost use Rattle.text.specs.Bytes.{written};
ghost use Rattle.reply.specs.Replies.{reply_to};

use reader::read;
use text::page::Page;
use writer::{put_fault, put_game};

// The game that a file holds, or its fault, and an empty line.
pub fn reply(file: &[u8]) -> Page
    ensures text { written result ≡ reply_to file.now }
{
    let mut page = Page::new();
    let mut deal = [0; 52];
    match read(file, &mut deal) {
        Ok(number) => put_game(&mut page, number, &deal),
        Err(fault) => put_fault(&mut page, fault),
    }
    page.put(b'\n');
    page
}
