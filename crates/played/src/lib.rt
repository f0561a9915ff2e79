// A real board played out act by act, and tricks worked by hand.

#![tactic(auto)]

#[cfg(test)]
mod cases;

#[cfg(test)]
mod tests {
    use crate::cases::{CALLS, CARDS, DEAL, TRICKS, WINNERS};
    use auctions::{Auction, Standing};
    use cards::calls::PASS;
    use cards::chairs::Chair;
    use cards::suits::{Denomination, Suit};
    use laws::{hand_left, ruling, seats};
    use rulings::Irregularity;
    use std::test::Fail;
    use tricks::{Progress, Trick, Turn, led};

    const AUCTION: Auction = Auction {
        dealer: Chair::North,
        calls: &CALLS,
    };

    // Every call was lawful, and the contract was two no trump by West.
    #[test]
    fn the_auction(rt: HostRuntime) -> Result<(), Fail> {
        let mut standing = Standing::start(Chair::North);
        for call in CALLS {
            assert!(rt; !standing.is_over());
            assert_eq!(rt; standing.ruling(call), Ok(()));
            standing = standing.after(call);
        }
        assert!(rt; standing.is_over());
        let Some(contract) = standing.contract() else {
            assert!(rt; false);
            return Ok(());
        };
        assert_eq!(rt; contract.level, 2);
        assert_eq!(rt; u8::from(contract.denomination), 4);
        assert_eq!(rt; u8::from(contract.doubling), 0);
        assert_eq!(rt; AUCTION.declarer(), Some(Chair::West));
        Ok(())
    }

    // Every card came from the hand in turn and was lawful, West was asked for East's, and each trick
    // went to the chair that the published play gives it.
    #[test]
    fn the_play(rt: HostRuntime) {
        let standing = AUCTION.standing();
        for (k, card) in CARDS.iter().enumerate() {
            let before = &CARDS[0..k];
            let progress = Progress::of(Denomination::NoTrump, Chair::West, before);
            let (asked, acting) = seats(progress.leader.ahead(k % 4), Some(Chair::West));
            assert_eq!(rt;
                asked,
                if acting == Chair::East {
                    Chair::West
                } else {
                    acting
                }
            );
            let turn = Turn {
                led: led(before),
                hand: hand_left(&DEAL, before, acting),
            };
            assert_eq!(rt; ruling(standing, turn, *card), Ok(()));
            if k % 4 == 0 && k > 0 {
                assert_eq!(rt; progress.leader, WINNERS[k / 4 - 1]);
            }
        }
        let end = Progress::of(Denomination::NoTrump, Chair::West, &CARDS);
        assert_eq!(rt; end.leader, WINNERS[12]);
        assert_eq!(rt; end.won, 8);
    }

    // A hand of the ace of spades and the two of hearts.
    const HAND: u64 = (1 << 51) | (1 << 26);

    // With spades led the ace has to be played; once it is gone, any card may be. The hand as dealt
    // would still forbid the heart then.
    #[test]
    fn a_revoke(rt: HostRuntime) {
        let turn = |led, hand| Turn { led, hand };
        let spades = Some(Suit::Spades);
        let dealt = turn(spades, HAND);
        assert_eq!(rt; dealt.ruling(26), Err(Irregularity::Revoke));
        assert_eq!(rt; dealt.ruling(51), Ok(()));
        assert_eq!(rt; turn(None, HAND).ruling(26), Ok(()));
        let left = turn(spades, hands::remaining(HAND, &[51]));
        assert_eq!(rt; left.ruling(26), Ok(()));
        assert_eq!(rt; left.ruling(51), Err(Irregularity::CardNotHeld));
        assert_eq!(rt; left.ruling(52), Err(Irregularity::NoSuchAct));
        assert_eq!(rt; dealt.lowest_legal(), Some(51));
        assert_eq!(rt; left.lowest_legal(), Some(26));
        assert_eq!(rt; turn(None, HAND).lowest_legal(), Some(26));
        assert_eq!(rt; turn(None, 0).lowest_legal(), None);
    }

    // On the real board, clubs are led to the second trick: North holds clubs, so no heart may be
    // played; the ten of spades is gone, and the two of clubs is South's.
    #[test]
    fn a_revoke_on_the_board(rt: HostRuntime) {
        let standing = AUCTION.standing();
        let before = &CARDS[0..6];
        let turn = Turn {
            led: led(before),
            hand: hand_left(&DEAL, before, Chair::North),
        };
        for (card, ruled) in [
            (30, Err(Irregularity::Revoke)),
            (47, Err(Irregularity::CardNotHeld)),
            (PASS, Err(Irregularity::CardNotHeld)),
            (11, Ok(())),
        ] {
            assert_eq!(rt; ruling(standing, turn, card), ruled);
        }
    }

    #[test]
    fn tricks_by_hand(rt: HostRuntime) {
        for (trumps, cards, by) in TRICKS {
            let trick = Trick {
                leader: Chair::West,
                cards: &cards,
            };
            assert_eq!(rt; trick.winner(trumps), by);
        }
        let none = Trick {
            leader: Chair::West,
            cards: &[],
        };
        assert_eq!(rt; none.winner(Denomination::NoTrump), Chair::West);
    }
}
