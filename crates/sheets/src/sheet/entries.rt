// Rows are put on a sheet.
ghost use Rattle.std.specs.Prelude.{◌≡◌, [], ◌∷◌, ◌++◌, ◌≤◌, length, is_ok, if◌then◌else◌, slice_set};
ghost use Rattle.sheets.specs.Rows.{is_pair, listed, pairs_fit, row_at, score_fits, ruling};
ghost use Rattle.sheets.specs.Sheets.{held, lent, memory};

use super::{MOST_ROWS, Sheet};
use crate::rows::{Refusal, Row};

fn is_pair(pair: u16) -> bool
    ensures pair { result ≡ is_pair pair }
{
    (1..=999).contains(&pair)
}

fn score_fits(score: i32) -> bool
    ensures fits { result ≡ score_fits score }
{
    let size = score.unsigned_abs();
    size <= 7600 && size % 10 == 0
}

impl<'a> Sheet<'a> {
    // An empty sheet over lent memory.
    pub fn new(rows: &'a mut [Row]) -> Sheet<'a>
        ensures empty { held result ≡ [] }
        ensures memory { memory result ≡ rows.old }
        ensures lent { lent result ≡ rows.entry.ghost_name }
    {
        Sheet { rows, used: 0 }
    }

    // The rows that the sheet holds.
    pub fn rows(&self) -> &[Row]
        ensures rows { result.now ≡ held self.now }
        ensures few { length result.now ≤ 128 }
    {
        &self.rows[..self.used]
    }

    fn is_listed(&self, pair: u16) -> bool
        ensures listed { result ≡ listed pair (held self.now) }
    {
        self.rows()
            .iter()
            .any(|row| row.ns == pair || row.ew == pair)
    }

    fn pairs_fit(&self, ns: u16, ew: u16) -> bool
        ensures fit { result ≡ pairs_fit (held self.now) ns ew }
    {
        is_pair(ns) && is_pair(ew) && ns != ew && !self.is_listed(ns) && !self.is_listed(ew)
    }

    // Puts a row behind the others: is there space, are the pairs new, is the score one of a board?
    pub fn add(&mut self, row: Row) -> Result<(), Refusal>
        ensures answer { result ≡ ruling (length (memory self.old)) (held self.old) row }
        ensures rows { held self.new ≡ (if is_ok result then held self.old ++ row ∷ [] else held self.old) }
        ensures memory { memory self.new ≡ (if is_ok result then slice_set (memory self.old) (length (held self.old)) row else memory self.old) }
        ensures lent { lent self.new ≡ lent self.old }
    {
        let used = self.used;
        if used >= MOST_ROWS || used >= self.rows.len() {
            return Err(Refusal::NoSpace);
        }
        if !self.pairs_fit(row.ns, row.ew) {
            return Err(Refusal::WrongPairs);
        }
        if !score_fits(row.score) {
            return Err(Refusal::WrongScore);
        }
        // By rule of this project lent rows are written field by field.
        self.rows[used].ns = row.ns;
        self.rows[used].ew = row.ew;
        self.rows[used].score = row.score;
        self.used = used + 1;
        Ok(())
    }

    // A row of the sheet, counted from 0.
    pub fn row(&self, i: usize) -> Result<Row, Refusal>
        ensures answer { result ≡ row_at (held self.now) i }
    {
        self.rows().get(i).copied().ok_or(Refusal::NoRow)
    }
}
