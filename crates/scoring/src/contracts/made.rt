// How a contract is made, and how its doubling is told.
ghost use Rattle.std.specs.Prelude.{◌≡◌, ok_or};
ghost use Rattle.cards.specs.Codes.{unknown};
ghost use Rattle.scoring.specs.Doublings.{code, made, with_code};

use crate::contracts::{Contract, Doubling};
use cards::codes::UnknownCode;
use cards::suits::Denomination;

// The number of a doubling: 0, 1 if doubled, 2 if redoubled.
impl From<Doubling> for u8 {
    ghost from_gives = { λ doubling n. n ≡ code doubling };

    fn from(doubling: Doubling) -> u8 {
        match doubling {
            Doubling::Undoubled => 0,
            Doubling::Doubled => 1,
            Doubling::Redoubled => 2,
        }
    }
}

// The doubling of a number, if it has one.
impl TryFrom<u8> for Doubling {
    type Error = UnknownCode;

    ghost try_from_gives = { λ n doubling. doubling ≡ ok_or (with_code n) (unknown n) };

    fn try_from(code: u8) -> Result<Doubling, UnknownCode> {
        match code {
            0 => Ok(Doubling::Undoubled),
            1 => Ok(Doubling::Doubled),
            2 => Ok(Doubling::Redoubled),
            _ => Err(UnknownCode(code)),
        }
    }
}

impl Contract {
    // The contract of a level, 1 to 7.
    pub fn new(level: u8, denomination: Denomination, doubling: Doubling) -> Option<Contract>
        ensures contract { made result level denomination doubling }
    {
        if !(1..=7).contains(&level) {
            return None;
        }
        Some(Contract {
            level,
            denomination,
            doubling,
        })
    }
}
