// Rules of comparison: what one score gets against another.
ghost use Rattle.std.specs.Prelude.{◌≡◌, ◌≤◌, ℤ, pos, ◌+ℤ◌};
ghost use Rattle.sheets.specs.Comparisons.{matchpoints, imps, imp_count, Table};
ghost use Rattle.std.proofs.Common.{rules};

use std::cmp::Ordering;

// A rule of comparison names its total: what two scores get, one against the other and the other
// against the one, always adds up to it.
pub trait Comparison {
    const TOTAL: i32;

    ghost TOTAL: { ℤ };

    ghost compared: { ℤ → ℤ → ℤ };

    // What a score gets against another.
    fn compare(score: i32, other: i32) -> i32
        ensures compared { result ≡ compared score other };

    ghost balanced: { (a b : ℤ) → compared a b +ℤ compared b a ≡ TOTAL };
}

// Two points for a higher score, one for an equal score.
pub struct Matchpoints;

impl Comparison for Matchpoints {
    const TOTAL: i32 = 2;

    ghost TOTAL = { pos 2 };

    ghost compared = { matchpoints };

    ghost balanced = { Prim.search rules };

    fn compare(score: i32, other: i32) -> i32 {
        match score.cmp(&other) {
            Ordering::Greater => 2,
            Ordering::Equal => 1,
            Ordering::Less => 0,
        }
    }
}

const LIMITS: [u32; 24] = [
    20, 50, 90, 130, 170, 220, 270, 320, 370, 430, 500, 600, 750, 900, 1100, 1300, 1500, 1750,
    2000, 2250, 2500, 3000, 3500, 4000,
];

// The IMPs for a difference of a size: how many limits lie at or below it, which a binary search finds, since
// they rise. They are 24 at most, so `as` keeps them; `try_from` would add a refusal that never comes.
pub fn imps_for(size: u64) -> u8
    ensures count { result ≡ imp_count size }
    ensures bound { result ≤ 24 }
    ensures table { Table }
{
    LIMITS.partition_point(|limit| u64::from(*limit) <= size) as u8
}

// International match points, by the size of the difference.
pub struct Imps;

impl Comparison for Imps {
    const TOTAL: i32 = 0;

    ghost TOTAL = { pos 0 };

    ghost compared = { imps };

    ghost balanced = { Prim.search rules };

    fn compare(score: i32, other: i32) -> i32 {
        let difference = i64::from(score) - i64::from(other);
        let points = i32::from(imps_for(difference.unsigned_abs()));
        match score.cmp(&other) {
            Ordering::Greater => points,
            Ordering::Equal => 0,
            Ordering::Less => -points,
        }
    }
}
