// The score of a contract, from bid points, premiums and penalties.
ghost use Rattle.std.specs.Prelude.{◌≡◌, ◌<◌, ◌≤◌, IfSome, unsigned_abs};
ghost use Rattle.scoring.specs.Laws.{Worked, Tens, Rises};
ghost use Rattle.scoring.specs.Scores.{trick_points, bid_points, game_premium, slam_premium, insult, overtrick, doubled_down, undertricks, made_points, score as score_of, scored, is_vulnerable, scored_ns};

use crate::contracts::{Contract, Doubling};
use cards::boards::Vulnerability;
use cards::chairs::Chair;
use cards::suits::{Denomination, Suit};

// What a trick of a denomination is worth, but for the first of no trump.
fn trick_points(denomination: Denomination) -> u32
    ensures points { result ≡ trick_points denomination }
    ensures small { result ≤ 30 }
{
    match denomination {
        Denomination::Trumps(Suit::Clubs) | Denomination::Trumps(Suit::Diamonds) => 20,
        _ => 30,
    }
}

fn bid_points(contract: Contract) -> u32
    ensures points { result ≡ bid_points contract.level contract.denomination contract.doubling }
    ensures small { result ≤ 1000 }
{
    let first = match contract.denomination {
        Denomination::NoTrump => 10,
        _ => 0,
    };
    let points = u32::from(contract.level) * trick_points(contract.denomination) + first;
    match contract.doubling {
        Doubling::Undoubled => points,
        Doubling::Doubled => 2 * points,
        Doubling::Redoubled => 4 * points,
    }
}

fn game_premium(points: u32, vulnerable: bool) -> u32
    ensures points { result ≡ game_premium points vulnerable }
    ensures small { result ≤ 500 }
{
    match (points >= 100, vulnerable) {
        (true, true) => 500,
        (true, false) => 300,
        (false, _) => 50,
    }
}

fn slam_premium(level: u8, vulnerable: bool) -> u32
    ensures points { result ≡ slam_premium level vulnerable }
    ensures small { result ≤ 1500 }
{
    match (level, vulnerable) {
        (6, true) => 750,
        (6, false) => 500,
        (7, true) => 1500,
        (7, false) => 1000,
        _ => 0,
    }
}

// The premium for making a contract that was doubled.
fn insult(doubling: Doubling) -> u32
    ensures points { result ≡ insult doubling }
    ensures small { result ≤ 100 }
{
    match doubling {
        Doubling::Undoubled => 0,
        Doubling::Doubled => 50,
        Doubling::Redoubled => 100,
    }
}

fn overtrick(contract: Contract, vulnerable: bool) -> u32
    ensures points { result ≡ overtrick contract.denomination contract.doubling vulnerable }
    ensures small { result ≤ 400 }
{
    match (contract.doubling, vulnerable) {
        (Doubling::Undoubled, _) => trick_points(contract.denomination),
        (Doubling::Doubled, false) => 100,
        (Doubling::Doubled, true) => 200,
        (Doubling::Redoubled, false) => 200,
        (Doubling::Redoubled, true) => 400,
    }
}

// What so many tricks short cost, doubled.
fn doubled_down(vulnerable: bool, short: u32) -> u32
    requires { short ≤ 13 }
    ensures points { result ≡ doubled_down vulnerable short }
    ensures small { result ≤ 4000 }
{
    let first = short.min(1);
    if vulnerable {
        200 * first + 300 * short.saturating_sub(1)
    } else {
        100 * first + 200 * short.saturating_sub(1).min(2) + 300 * short.saturating_sub(3)
    }
}

fn undertricks(doubling: Doubling, vulnerable: bool, short: u32) -> u32
    requires { short ≤ 13 }
    ensures points { result ≡ undertricks doubling vulnerable short }
    ensures small { result ≤ 8000 }
{
    match (doubling, vulnerable) {
        (Doubling::Undoubled, false) => 50 * short,
        (Doubling::Undoubled, true) => 100 * short,
        (Doubling::Doubled, _) => doubled_down(vulnerable, short),
        (Doubling::Redoubled, _) => 2 * doubled_down(vulnerable, short),
    }
}

fn made_points(contract: Contract, vulnerable: bool, over: u32) -> u32
    requires { over ≤ 6 }
    ensures points { result ≡ made_points contract.level contract.denomination contract.doubling vulnerable over }
    ensures small { result ≤ 8000 }
{
    let bid = bid_points(contract);
    let premiums = game_premium(bid, vulnerable)
        + slam_premium(contract.level, vulnerable)
        + insult(contract.doubling);
    bid + premiums + overtrick(contract, vulnerable) * over
}

// The score, signed. Points are small, so `as` keeps them; `try_from` would add a refusal that never comes.
// A contract and its tricks have no one name in the game, so they are two parameters.
fn points(contract: Contract, vulnerable: bool, tricks: u8) -> i32
    requires { tricks ≤ 13 }
    ensures score { result ≡ score_of contract.level contract.denomination contract.doubling vulnerable tricks }
    ensures bounded { unsigned_abs result ≤ 7600 }
{
    let needed = contract.level + 6;
    if tricks >= needed {
        made_points(contract, vulnerable, u32::from(tricks - needed)) as i32
    } else {
        -(undertricks(contract.doubling, vulnerable, u32::from(needed - tricks)) as i32)
    }
}

// The score of declarer's side for a contract and so many tricks; no side has more than 13.
pub fn score(contract: Contract, vulnerable: bool, tricks: u8) -> Option<i32>
    ensures score { result ≡ scored contract vulnerable tricks }
    ensures bounded { IfSome result (λ z. unsigned_abs z ≤ 7600) }
    ensures worked { Worked }
    ensures tens { Tens }
    ensures rises { Rises }
{
    if tricks > 13 {
        return None;
    }
    Some(points(contract, vulnerable, tricks))
}

// Is the chair's side vulnerable?
fn is_vulnerable(vulnerability: Vulnerability, chair: Chair) -> bool
    ensures covers { result ≡ is_vulnerable vulnerability chair }
{
    match (vulnerability, chair) {
        (Vulnerability::Neither, _) => false,
        (Vulnerability::NorthSouth, Chair::North | Chair::South) => true,
        (Vulnerability::EastWest, Chair::East | Chair::West) => true,
        (Vulnerability::Both, _) => true,
        _ => false,
    }
}

// The score to North-South, by who is declarer and who is vulnerable.
pub fn score_to_ns(
    contract: Contract,
    declarer: Chair,
    vulnerability: Vulnerability,
    tricks: u8,
) -> Option<i32>
    ensures score { result ≡ scored_ns contract declarer vulnerability tricks }
{
    let points = score(contract, is_vulnerable(vulnerability, declarer), tricks)?;
    match declarer {
        Chair::North | Chair::South => Some(points),
        Chair::East | Chair::West => Some(-points),
    }
}
