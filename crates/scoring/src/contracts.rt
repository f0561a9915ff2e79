// Contracts: what was bid, and how far it was doubled.
ghost use Rattle.std.specs.Prelude.{◌≤◌};

use cards::suits::Denomination;

pub mod made;

#[derive(Clone, Copy, Debug, PartialEq, Eq)]
pub enum Doubling {
    Undoubled,
    Doubled,
    Redoubled,
}

// The last bid of an auction, with its doubling. No other levels than 1 to 7 can be written.
#[derive(Clone, Copy)]
pub struct Contract {
    pub level: u8,
    pub denomination: Denomination,
    pub doubling: Doubling,
    ghost least: { 1 ≤ level },
    ghost most: { level ≤ 7 },
}
