// Reads score slips from standard input, and prints each row with its matchpoints and IMPs.

#![tactic(auto)]

use input::{MOST, fill};
use lines::Lines;
use sheets::comparisons::{Imps, Matchpoints};
use sheets::rows::Row;
use sheets::sheet::{MOST_ROWS, Sheet};
use slips::read_slip;
use std::io;

// Adds a row for each line, and says which lines are refused.
fn add_slips(rt: &impl Print, sheet: &mut Sheet, slips: &[u8]) -> io::Result<()> {
    for (count, line) in (1u64..).zip(Lines::of(slips)) {
        match read_slip(line.text) {
            Some(row) => {
                if let Err(refusal) = sheet.add(row) {
                    let number = refusal.number();
                    println!(rt; "% row {count} refused {number}")?;
                }
            }
            None => println!(rt; "% row {count} is not three numbers")?,
        }
    }
    Ok(())
}

// Prints the rows with their results, and the sums beside what they have to be.
fn print_results(rt: &impl Print, sheet: &Sheet) -> io::Result<()> {
    println!(rt; "  NS   EW   Score     MP    IMP")?;
    for (i, row) in sheet.rows().iter().enumerate() {
        let matchpoints = sheet.result::<Matchpoints>(i).unwrap();
        let imps = sheet.result::<Imps>(i).unwrap();
        println!(rt;
            "{:>4} {:>4} {:>7} {matchpoints:>6} {imps:>6}",
            row.ns, row.ew, row.score
        )?;
    }
    println!(rt;
        "{:>17} {:>6} {:>6}",
        "sum",
        sheet.sum::<Matchpoints>(),
        sheet.sum::<Imps>()
    )?;
    println!(rt;
        "{:>17} {:>6} {:>6}",
        "law",
        sheet.share::<Matchpoints>(),
        sheet.share::<Imps>()
    )
}

fn main(rt: HostRuntime) -> io::Result<()> {
    let mut bytes = [0; MOST];
    let length = fill(&mut rt.stdin(), &mut bytes)?;
    if length == MOST {
        return println!(rt; "% the input is longer than 65535 bytes");
    }
    let mut rows = [Row::default(); MOST_ROWS];
    let mut sheet = Sheet::new(&mut rows);
    add_slips(&rt, &mut sheet, &bytes[0..length])?;
    print_results(&rt, &sheet)
}
