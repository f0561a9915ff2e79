// The letters of chairs and ranks, and the words for a vulnerability: functions, since the types are those
// of crate cards, which knows no text, and a rank is a number.
ghost use Rattle.std.specs.Prelude.{◌≡◌};
ghost use Rattle.values.specs.Letters.{chair_letter, chair_named, dealer_named, rank_letter, rank_named, vulnerability_named};

use cards::boards::Vulnerability;
use cards::chairs::Chair;

const RANKS: [u8; 13] = *b"23456789TJQKA";

// The letter of a chair.
pub fn chair_letter(chair: Chair) -> u8
    ensures letter { result ≡ chair_letter chair }
{
    match chair {
        Chair::North => b'N',
        Chair::East => b'E',
        Chair::South => b'S',
        Chair::West => b'W',
    }
}

// The letter of a rank. Every number has an answer: no rank is above 12, and there it is 0, no letter.
pub fn rank_letter(rank: u8) -> u8
    ensures letter { result ≡ rank_letter rank }
{
    RANKS.get(usize::from(rank)).copied().unwrap_or(0)
}

// The chair of a letter.
pub fn chair_named(letter: char) -> Option<Chair>
    ensures chair { result ≡ chair_named letter }
{
    match letter {
        'N' => Some(Chair::North),
        'E' => Some(Chair::East),
        'S' => Some(Chair::South),
        'W' => Some(Chair::West),
        _ => None,
    }
}

// The rank of a letter, from 0 for the two to 12 for the ace.
pub fn rank_named(letter: char) -> Option<u8>
    ensures rank { result ≡ rank_named letter }
{
    match letter {
        'A' => Some(12),
        'K' => Some(11),
        'Q' => Some(10),
        'J' => Some(9),
        'T' => Some(8),
        '9' => Some(7),
        '8' => Some(6),
        '7' => Some(5),
        '6' => Some(4),
        '5' => Some(3),
        '4' => Some(2),
        '3' => Some(1),
        '2' => Some(0),
        _ => None,
    }
}

// The chair that the value of a Dealer tag names.
pub fn dealer_named(value: &[u8]) -> Option<Chair>
    ensures chair { result ≡ dealer_named value.now }
{
    let [letter] = value else {
        return None;
    };
    chair_named(char::from(*letter))
}

// What the value of a Vulnerable tag says.
pub fn vulnerability_named(value: &[u8]) -> Option<Vulnerability>
    ensures vulnerability { result ≡ vulnerability_named value.now }
{
    match value {
        b"None" => Some(Vulnerability::Neither),
        b"NS" => Some(Vulnerability::NorthSouth),
        b"EW" => Some(Vulnerability::EastWest),
        b"All" => Some(Vulnerability::Both),
        _ => None,
    }
}
