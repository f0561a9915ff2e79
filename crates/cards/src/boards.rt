// What a board's number settles: who deals, and which sides are vulnerable.
ghost use Rattle.std.specs.Prelude.{◌≡◌, ◌+◌, ◌-◌, ◌/◌, ◌%◌, ◌<◌, ok_or};
ghost use Rattle.cards.specs.Boards.{code, dealer, vulnerability, with_code};
ghost use Rattle.cards.specs.Chairs.{code as chair_code};
ghost use Rattle.cards.specs.Codes.{unknown};

use crate::chairs::Chair;
use crate::codes::UnknownCode;

// Which sides are vulnerable.
#[derive(Clone, Copy, Debug, PartialEq, Eq)]
pub enum Vulnerability {
    Neither,
    NorthSouth,
    EastWest,
    Both,
}

// The number of a vulnerability, 0 to 3.
impl From<Vulnerability> for u8 {
    ghost from_gives = { λ vulnerability n. n ≡ code vulnerability };

    fn from(vulnerability: Vulnerability) -> u8 {
        match vulnerability {
            Vulnerability::Neither => 0,
            Vulnerability::NorthSouth => 1,
            Vulnerability::EastWest => 2,
            Vulnerability::Both => 3,
        }
    }
}

// The vulnerability of a number, if it has one.
impl TryFrom<u8> for Vulnerability {
    type Error = UnknownCode;

    ghost try_from_gives = { λ n vulnerability. vulnerability ≡ ok_or (with_code n) (unknown n) };

    fn try_from(code: u8) -> Result<Vulnerability, UnknownCode> {
        match code {
            0 => Ok(Vulnerability::Neither),
            1 => Ok(Vulnerability::NorthSouth),
            2 => Ok(Vulnerability::EastWest),
            3 => Ok(Vulnerability::Both),
            _ => Err(UnknownCode(code)),
        }
    }
}

// The dealer of a board: North deals board 1, and the deal goes clockwise. A remainder by four always
// has a chair, and below a vulnerability.
pub fn dealer_of(number: u8) -> Chair
    ensures chair { result ≡ dealer number }
    ensures code { chair_code result ≡ (number - 1) % 4 }
{
    Chair::try_from(number.saturating_sub(1) % 4).unwrap_or(Chair::West)
}

// The vulnerability of a board, which comes round after sixteen.
pub fn vulnerability_of(number: u8) -> Vulnerability
    ensures vulnerability { result ≡ vulnerability number }
    ensures code { code result ≡ ((number - 1) % 4 + (number - 1) / 4) % 4 }
{
    let before = number.saturating_sub(1);
    Vulnerability::try_from((before % 4 + before / 4) % 4).unwrap_or(Vulnerability::Both)
}
