// Suits, and the denominations of a bid.
ghost use Rattle.std.specs.Prelude.{◌≡◌, ◌<◌, ok_or};
ghost use Rattle.cards.specs.Codes.{unknown};
ghost use Rattle.cards.specs.Suits.{code, lower, rank as denomination_code, suit_with_code, denomination_with_code};

use crate::codes::UnknownCode;

#[derive(Clone, Copy, Debug, PartialEq, Eq)]
pub enum Suit {
    Clubs,
    Diamonds,
    Hearts,
    Spades,
}

// The suit's number, 0 to 3, the lowest suit first.
impl From<Suit> for u8 {
    ghost from_gives = { λ suit n. (n ≡ code suit) × (n < 4) };

    fn from(suit: Suit) -> u8 {
        match suit {
            Suit::Clubs => 0,
            Suit::Diamonds => 1,
            Suit::Hearts => 2,
            Suit::Spades => 3,
        }
    }
}

// The suit of a number, if it has one.
impl TryFrom<u8> for Suit {
    type Error = UnknownCode;

    ghost try_from_gives = { λ n suit. suit ≡ ok_or (suit_with_code n) (unknown n) };

    fn try_from(code: u8) -> Result<Suit, UnknownCode> {
        match code {
            0 => Ok(Suit::Clubs),
            1 => Ok(Suit::Diamonds),
            2 => Ok(Suit::Hearts),
            3 => Ok(Suit::Spades),
            _ => Err(UnknownCode(code)),
        }
    }
}

impl Suit {
    // The suit that ranks just below, if one does.
    pub fn lower(self) -> Option<Suit>
        ensures suit { result ≡ lower self }
    {
        match self {
            Suit::Clubs => None,
            Suit::Diamonds => Some(Suit::Clubs),
            Suit::Hearts => Some(Suit::Diamonds),
            Suit::Spades => Some(Suit::Hearts),
        }
    }
}

// What a bid names as trumps: a suit, or none.
#[derive(Clone, Copy, Debug, PartialEq, Eq)]
pub enum Denomination {
    Trumps(Suit),
    NoTrump,
}

// The denomination's number: its suit's, or 4 for no trump.
impl From<Denomination> for u8 {
    ghost from_gives = { λ denomination n. (n ≡ denomination_code denomination) × (n < 5) };

    fn from(denomination: Denomination) -> u8 {
        match denomination {
            Denomination::Trumps(suit) => suit.into(),
            Denomination::NoTrump => 4,
        }
    }
}

// The denomination of a number, if it has one.
impl TryFrom<u8> for Denomination {
    type Error = UnknownCode;

    ghost try_from_gives = { λ n denomination. denomination ≡ ok_or (denomination_with_code n) (unknown n) };

    fn try_from(code: u8) -> Result<Denomination, UnknownCode> {
        match code {
            4 => Ok(Denomination::NoTrump),
            _ => Ok(Denomination::Trumps(Suit::try_from(code)?)),
        }
    }
}
