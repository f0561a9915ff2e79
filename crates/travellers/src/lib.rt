// Scores, travellers and the edges of a sheet, worked by hand.

#![tactic(auto)]

#[cfg(test)]
mod tests {
    use cards::boards::Vulnerability;
    use cards::chairs::Chair;
    use cards::suits::{Denomination, Suit};
    use scoring::contracts::{Contract, Doubling};
    use scoring::scores::score_to_ns;
    use sheets::comparisons::{Comparison, Imps, Matchpoints};
    use sheets::rows::{Refusal, Row};
    use sheets::sheet::Sheet;
    use std::test::Fail;

    fn row(ns: u16, ew: u16, score: i32) -> Row {
        Row { ns, ew, score }
    }

    // A traveller of eight tables: the score of each row, and its matchpoints.
    //
    // Two points for each lower score and one for each equal one: 680 has seven lower, 14; 650 six, 12;
    // 620 four lower and one equal, 9, twice; 170 three, 6; 140 two, 4; -100 one equal, 1, twice. They
    // add up to 56, which is 2 x 8 x 7 / 2.
    //
    // IMPs of 680: 30 more than 650 is 1, 60 more than 620 is 2, twice, 510 more than 170 is 11, 540 more
    // than 140 is 11, 780 more than -100 is 13, twice; in all 53.
    // IMPs of -100: 780 less than 680 is -13, 750 less than 650 is -13, 720 less than 620 is -12, twice,
    // 270 less than 170 is -7, 240 less than 140 is -6, and nothing against -100; in all -63.
    const TRAVELLER: [(i32, i64); 8] = [
        (680, 14),
        (650, 12),
        (620, 9),
        (620, 9),
        (170, 6),
        (140, 4),
        (-100, 1),
        (-100, 1),
    ];

    #[test]
    fn a_traveller(rt: HostRuntime) {
        let mut rows = [Row::default(); 8];
        let mut sheet = Sheet::new(&mut rows);
        for (i, (score, _)) in TRAVELLER.iter().enumerate() {
            // No From leads from usize to u16; with (1..=8).zip(..) it was not proved that pair + 20 fits.
            let pair = i as u16 + 1;
            assert_eq!(rt; sheet.add(row(pair, pair + 20, *score)), Ok(()));
        }
        for (i, (_, matchpoints)) in TRAVELLER.iter().enumerate() {
            assert_eq!(rt; sheet.result::<Matchpoints>(i), Ok(*matchpoints));
        }
        assert_eq!(rt; sheet.result::<Imps>(0), Ok(53));
        assert_eq!(rt; sheet.result::<Imps>(6), Ok(-63));
        assert_eq!(rt; sheet.sum::<Matchpoints>(), 56);
        assert_eq!(rt; sheet.sum::<Imps>(), 0);
    }

    fn is_blank(rows: &[Row]) -> bool {
        rows.iter().all(|row| *row == Row::default())
    }

    #[test]
    fn no_memory_and_no_rows(rt: HostRuntime) {
        let mut none = [Row::default(); 0];
        let mut sheet = Sheet::new(&mut none);
        assert_eq!(rt; sheet.add(row(1, 2, 620)), Err(Refusal::NoSpace));
        assert_eq!(rt; sheet.result::<Imps>(0), Err(Refusal::NoRow));
        assert_eq!(rt; sheet.sum::<Matchpoints>(), 0);
    }

    #[test]
    fn refused_rows(rt: HostRuntime) {
        let mut rows = [Row::default(); 3];
        let mut sheet = Sheet::new(&mut rows);
        for (ns, ew, score, refusal) in [
            (0, 7, 620, Refusal::WrongPairs),
            (1, 1000, 620, Refusal::WrongPairs),
            (7, 7, 620, Refusal::WrongPairs),
            (1, 7, 15, Refusal::WrongScore),
            (1, 7, 7610, Refusal::WrongScore),
            (1, 7, -7610, Refusal::WrongScore),
            (0, 7, 15, Refusal::WrongPairs),
        ] {
            assert_eq!(rt; sheet.add(row(ns, ew, score)), Err(refusal));
        }
        assert_eq!(rt; sheet.result::<Matchpoints>(0), Err(Refusal::NoRow));
        assert!(rt; is_blank(&rows));
    }

    #[test]
    fn three_rows(rt: HostRuntime) {
        let mut rows = [Row::default(); 3];
        let mut sheet = Sheet::new(&mut rows);
        assert_eq!(rt; sheet.add(row(1, 999, 7600)), Ok(()));
        assert_eq!(rt; sheet.result::<Matchpoints>(0), Ok(0));
        assert_eq!(rt; sheet.add(row(999, 2, 0)), Err(Refusal::WrongPairs));
        assert_eq!(rt; sheet.add(row(3, 1, 0)), Err(Refusal::WrongPairs));
        assert_eq!(rt; sheet.add(row(2, 3, -7600)), Ok(()));
        assert_eq!(rt; sheet.add(row(4, 5, 0)), Ok(()));
        assert_eq!(rt; sheet.add(row(6, 6, 15)), Err(Refusal::NoSpace));
        assert_eq!(rt; sheet.result::<Imps>(0), Ok(48));
        assert_eq!(rt; sheet.result::<Imps>(3), Err(Refusal::NoRow));
        assert_eq!(rt; rows[0], row(1, 999, 7600));
        assert_eq!(rt; rows[1], row(2, 3, -7600));
        assert_eq!(rt; rows[2], row(4, 5, 0));
    }

    #[test]
    fn at_most_128_rows(rt: HostRuntime) {
        let mut rows = [Row::default(); 130];
        let mut sheet = Sheet::new(&mut rows);
        for i in 0..128u16 {
            assert_eq!(rt; sheet.add(row(i + 1, i + 501, 0)), Ok(()));
        }
        assert_eq!(rt; sheet.add(row(400, 401, 0)), Err(Refusal::NoSpace));
        assert_eq!(rt; sheet.result::<Matchpoints>(127), Ok(127));
        assert_eq!(rt; sheet.sum::<Matchpoints>(), 16_256);
        assert_eq!(rt; rows[128], Row::default());
    }

    // The difference at which each IMP begins.
    const LIMITS: [i32; 24] = [
        20, 50, 90, 130, 170, 220, 270, 320, 370, 430, 500, 600, 750, 900, 1100, 1300, 1500, 1750,
        2000, 2250, 2500, 3000, 3500, 4000,
    ];

    #[test]
    fn imps_at_each_limit(rt: HostRuntime) {
        for (i, limit) in LIMITS.iter().enumerate() {
            // An index, since with (1..=24).zip(..) it was not proved that -points fits.
            let points = i as i32 + 1;
            assert_eq!(rt; Imps::compare(*limit, 0), points);
            assert_eq!(rt; Imps::compare(0, *limit), -points);
            assert_eq!(rt; Imps::compare(*limit, 10), points - 1);
        }
        assert_eq!(rt; Matchpoints::compare(-50, -100), 2);
        assert_eq!(rt; Matchpoints::compare(-100, -100), 1);
    }

    #[test]
    fn scores_to_north_south(rt: HostRuntime) -> Result<(), Fail> {
        let hearts = Denomination::Trumps(Suit::Hearts);
        let Some(four) = Contract::new(4, hearts, Doubling::Undoubled) else {
            return Err(Fail::new("no contract"));
        };
        assert_eq!(rt;
            score_to_ns(four, Chair::West, Vulnerability::EastWest, 10),
            Some(-620)
        );
        assert_eq!(rt;
            score_to_ns(four, Chair::South, Vulnerability::EastWest, 10),
            Some(420)
        );
        assert_eq!(rt;
            score_to_ns(four, Chair::East, Vulnerability::NorthSouth, 8),
            Some(100)
        );
        assert_eq!(rt;
            score_to_ns(four, Chair::North, Vulnerability::Both, 14),
            None
        );
        assert!(rt; Contract::new(8, hearts, Doubling::Doubled).is_none());
        Ok(())
    }
}
