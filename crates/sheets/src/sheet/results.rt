// Results, under any rule of comparison.
ghost use Rattle.std.specs.Prelude.{◌≡◌, ◌-◌, ◌*◌, ◌/◌, ◌^◌, ◌<◌, ◌≤◌, length, unsigned_abs};
ghost use Rattle.sheets.specs.Results.{against, answered, result_of, sum_of, shared, AddsUp};
ghost use Rattle.sheets.specs.Sheets.{held};

use super::Sheet;
use crate::comparisons::Comparison;
use crate::rows::{Refusal, Row};

// What a score gets against each of the rows, added up.
fn against<C: Comparison>(score: i32, rows: &[Row]) -> i64
    requires { length rows.now ≤ 128 }
    ensures sum { result ≡ against C.Comparison.compared score rows.now }
    ensures bound { unsigned_abs result ≤ 2 ^ 38 }
{
    // A loop, since a chain that ends in `sum` leaves the bound of a signed sum unproved.
    let mut sum: i64 = 0;
    for row in rows {
        sum += i64::from(C::compare(score, row.score));
    }
    sum
}

impl Sheet<'_> {
    // The result of a row that is there: its sum against all others.
    fn result_at<C: Comparison>(&self, i: usize) -> i64
        requires { i < length (held self.now) }
        ensures result { result ≡ result_of C.Comparison.compared (held self.now) i }
        ensures bound { unsigned_abs result ≤ 2 ^ 39 }
    {
        let rows = self.rows();
        let score = rows[i].score;
        against::<C>(score, &rows[..i]) + against::<C>(score, &rows[i + 1..])
    }

    // The result of a row, counted from 0: its sum against all other rows.
    pub fn result<C: Comparison>(&self, i: usize) -> Result<i64, Refusal>
        ensures answer { result ≡ answered C.Comparison.compared (held self.now) i }
    {
        if i >= self.used {
            return Err(Refusal::NoRow);
        }
        Ok(self.result_at::<C>(i))
    }

    // The sum of all results: by the law, the rule's total for each two rows.
    pub fn sum<C: Comparison>(&self) -> i64
        ensures sum { result ≡ sum_of C.Comparison.compared (held self.now) }
        ensures shared { result ≡ shared C.Comparison.TOTAL (length (held self.now)) }
        ensures law { AddsUp C.Comparison.compared C.Comparison.TOTAL }
    {
        let rows = self.rows();
        // A row's result leaves that row out, so it is asked for by its place.
        let mut sum: i64 = 0;
        for i in 0..rows.len() {
            sum += self.result_at::<C>(i);
        }
        sum
    }

    // What the results have to add up to: the rule's total for each two rows. Rows are few, so `as` keeps
    // the meetings; `try_from` would add a refusal that never comes.
    pub fn share<C: Comparison>(&self) -> i64
        ensures share { result ≡ shared C.Comparison.TOTAL (length (held self.now)) }
    {
        let rows = self.rows().len();
        let meetings = rows * rows.saturating_sub(1) / 2;
        i64::from(C::TOTAL) * meetings as i64
    }
}
