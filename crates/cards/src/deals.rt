// Deals. By rule a deal is 52 bytes in its caller's memory, of which byte c names the chair that gets the
// card c; so it goes as it is, with a chair, from function to function.
ghost use Rattle.std.specs.Prelude.{◌≡◌};
ghost use Rattle.cards.specs.Chairs.{code};
ghost use Rattle.cards.specs.Deals.{count, thirteen_each};

use crate::chairs::Chair;

// How many cards a chair gets.
pub fn count(deal: &[u8; 52], chair: Chair) -> usize
    ensures count { result ≡ count (code chair) deal.now }
{
    let code = u8::from(chair);
    // A sum of ones compiles to wide additions; a filter and `count` go byte by byte.
    deal.iter()
        .map(|receiver| usize::from(*receiver == code))
        .sum()
}

// Does each chair get 13 cards?
pub fn is_thirteen_each(deal: &[u8; 52]) -> bool
    ensures each { result ≡ thirteen_each deal.now }
{
    count(deal, Chair::North) == 13
        && count(deal, Chair::East) == 13
        && count(deal, Chair::South) == 13
        && count(deal, Chair::West) == 13
}
