// A finished board, passed out or played to the last card, and what it came to.

#![tactic(auto)]

ghost use Rattle.std.specs.Prelude.{◌≡◌, ◌≤◌, true, unsigned_abs};
ghost use Rattle.finished.specs.Finished.{board_of, is_complete};
ghost use Rattle.text.specs.Bytes.{written};

use cards::boards::Vulnerability;
use cards::chairs::Chair;
use scoring::contracts::Contract;
use text::bytes::Bytes;

pub mod checks;
pub mod outcomes;

// A numbered board with its deal, the calls that ended its auction and all its cards. What is asked
// of these holds of every board of this type.
#[derive(Clone, Copy)]
pub struct FinishedBoard {
    pub number: u8,
    pub dealer: Chair,
    pub vulnerability: Vulnerability,
    pub deal: [u8; 52],
    pub calls: Bytes<319>,
    pub cards: Bytes<52>,
    ghost complete: { is_complete (board_of number dealer vulnerability deal (written calls) (written cards)) ≡ true },
}

// The contract with its declarer, the tricks of declarer's side, and the score to North-South.
#[derive(Clone, Copy)]
pub struct Outcome {
    pub contract: Contract,
    pub declarer: Chair,
    pub tricks: u8,
    pub score: i32,
    ghost few: { tricks ≤ 13 },
    ghost bounded: { unsigned_abs score ≤ 7600 },
}
