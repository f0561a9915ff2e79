// The four chairs of a table, clockwise.
ghost use Rattle.std.specs.Prelude.{◌≡◌, ◌+◌, ◌%◌, ◌<◌, ok_or};
ghost use Rattle.cards.specs.Chairs.{Clockwise, ahead, code, next, partner, place, same_side, with_code};
ghost use Rattle.cards.specs.Codes.{unknown};

use crate::codes::UnknownCode;

#[derive(Clone, Copy, Debug, PartialEq, Eq)]
pub enum Chair {
    North,
    East,
    South,
    West,
}

// The chair's number, 0 to 3.
impl From<Chair> for u8 {
    ghost from_gives = { λ chair n. (n ≡ code chair) × (n < 4) };

    fn from(chair: Chair) -> u8 {
        match chair {
            Chair::North => 0,
            Chair::East => 1,
            Chair::South => 2,
            Chair::West => 3,
        }
    }
}

// The chair of a number, if it has one.
impl TryFrom<u8> for Chair {
    type Error = UnknownCode;

    ghost try_from_gives = { λ n chair. chair ≡ ok_or (with_code n) (unknown n) };

    fn try_from(code: u8) -> Result<Chair, UnknownCode> {
        match code {
            0 => Ok(Chair::North),
            1 => Ok(Chair::East),
            2 => Ok(Chair::South),
            3 => Ok(Chair::West),
            _ => Err(UnknownCode(code)),
        }
    }
}

impl Chair {
    // The next chair clockwise.
    pub fn next(self) -> Chair
        ensures chair { result ≡ next self }
        ensures clockwise { code result ≡ (code self + 1) % 4 }
    {
        match self {
            Chair::North => Chair::East,
            Chair::East => Chair::South,
            Chair::South => Chair::West,
            Chair::West => Chair::North,
        }
    }

    // The chair across the table.
    pub fn partner(self) -> Chair
        ensures chair { result ≡ partner self }
        ensures across { code result ≡ (code self + 2) % 4 }
    {
        self.next().next()
    }

    // The chair so many places further clockwise.
    pub fn ahead(self, places: usize) -> Chair
        ensures chair { result ≡ ahead self places }
        ensures clockwise { Clockwise }
    {
        match places % 4 {
            0 => self,
            1 => self.next(),
            2 => self.partner(),
            _ => self.partner().next(),
        }
    }

    // How many places after the leader, clockwise, the chair sits.
    pub fn place(self, leader: Chair) -> usize
        ensures place { result ≡ place leader self }
        ensures small { result < 4 }
    {
        usize::from((u8::from(self) + 4 - u8::from(leader)) % 4)
    }

    // Are the two one chair, or partners?
    pub fn same_side(self, other: Chair) -> bool
        ensures side { result ≡ same_side self other }
    {
        self.place(other) % 2 == 0
    }
}
