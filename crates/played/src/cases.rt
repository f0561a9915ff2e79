// Board 13 of the 2007 Spingold final, closed room, first quarter, and tricks worked by hand.
use cards::chairs::Chair;
use cards::suits::{Denomination, Suit};

// The chair that gets each card, from the two of clubs to the ace of spades.
pub const DEAL: [u8; 52] = [
    2, 0, 3, 1, 2, 1, 3, 0, 0, 3, 3, 0, 3, 0, 3, 0, 1, 2, 0, 0, 2, 1, 1, 2, 3, 3, 1, 3, 3, 2, 0, 2,
    2, 1, 0, 1, 3, 1, 2, 2, 0, 1, 3, 1, 0, 1, 3, 0, 2, 2, 1, 2,
];

// Pass Pass 1D 1NT, Pass 2C Pass 2D, Pass 2NT Pass Pass, Pass: North dealt.
pub const CALLS: [u8; 13] = [0, 0, 4, 7, 0, 8, 0, 9, 0, 12, 0, 0, 0];

// The cards in the order in which they were played.
pub const CARDS: [u8; 52] = [
    47, 50, 51, 42, 4, 10, 11, 3, 44, 41, 48, 46, 0, 9, 1, 5, 36, 30, 26, 29, 27, 34, 37, 31, 33,
    38, 28, 18, 32, 2, 40, 35, 22, 20, 14, 13, 16, 17, 24, 15, 25, 19, 21, 23, 12, 7, 43, 39, 6, 8,
    45, 49,
];

// Who won each trick.
pub const WINNERS: [Chair; 13] = [
    Chair::South,
    Chair::North,
    Chair::South,
    Chair::West,
    Chair::West,
    Chair::East,
    Chair::South,
    Chair::East,
    Chair::East,
    Chair::West,
    Chair::West,
    Chair::West,
    Chair::North,
];

const SPADES: Denomination = Denomination::Trumps(Suit::Spades);

const HEARTS: Denomination = Denomination::Trumps(Suit::Hearts);

// Tricks that West leads, then North, East and South, with their winner. The two of hearts is 26, its
// ace 38; the two of spades 39, its ace 51; the two of clubs 0, its ace 12; the two of diamonds 13.
pub const TRICKS: [(Denomination, [u8; 4], Chair); 9] = [
    // the highest of the suit led, whoever plays it
    (Denomination::NoTrump, [26, 38, 30, 27], Chair::North),
    (Denomination::NoTrump, [38, 26, 30, 27], Chair::West),
    // discards do not win, however high, and with no trump no suit ruffs
    (Denomination::NoTrump, [26, 51, 12, 25], Chair::West),
    (HEARTS, [0, 51, 25, 50], Chair::West),
    // a ruff with the lowest trump beats the ace of the suit led
    (SPADES, [12, 0, 39, 11], Chair::East),
    // an overruff, and an attempt that is too low
    (SPADES, [12, 40, 0, 41], Chair::South),
    (SPADES, [12, 41, 0, 40], Chair::North),
    // trumps led: the highest trump
    (SPADES, [45, 39, 51, 50], Chair::East),
    // a ruff and a discard of another suit
    (HEARTS, [13, 51, 26, 25], Chair::East),
];
