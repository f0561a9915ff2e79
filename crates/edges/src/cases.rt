// The cases: each a file, and what the rules fix for it.

// What a file answers: its board number and the chair that gets the ace of spades, or the layer,
// number and offset of its fault.
pub type Told = Result<(u8, u8), (u8, u8, usize)>;

// A file in five parts, and what it answers.
#[derive(Clone, Copy)]
pub struct Case {
    pub board: &'static [u8],
    pub dealer: &'static [u8],
    pub vulnerable: &'static [u8],
    pub deal: &'static [u8],
    pub more: &'static [u8],
    pub told: Told,
}

pub const BOARD: &[u8] = b"[Board \"1\"]\n";

pub const DEALER: &[u8] = b"[Dealer \"N\"]\n";

pub const VULNERABLE: &[u8] = b"[Vulnerable \"None\"]\n";

pub const DEAL: &[u8] =
    b"[Deal \"N:AKQJT98765432... .AKQJT98765432.. ..AKQJT98765432. ...AKQJT98765432\"]\n";

// The lines start at 0, 12, 25, 45 and 124.
pub const LAWFUL: Case = Case {
    board: BOARD,
    dealer: DEALER,
    vulnerable: VULNERABLE,
    deal: DEAL,
    more: b"",
    told: Ok((1, 0)),
};

// Lines: their ends and their bytes.
pub const LINES: [Case; 9] = [
    LAWFUL,
    Case {
        deal: b"[Deal \"N:AKQJT98765432... .AKQJT98765432.. ..AKQJT98765432. ...AKQJT98765432\"]",
        ..LAWFUL
    },
    Case {
        board: b"[Board \"1\"]\r\n",
        dealer: b"[Dealer \"N\"]\r\n",
        vulnerable: b"[Vulnerable \"None\"]\r\n",
        deal: b"[Deal \"N:AKQJT98765432... .AKQJT98765432.. ..AKQJT98765432. ...AKQJT98765432\"]\r\n",
        more: b"\r\n",
        ..LAWFUL
    },
    Case {
        more: b"a\rb\n",
        told: Err((1, 22, 124)),
        ..LAWFUL
    },
    Case {
        more: b"a\r",
        told: Err((1, 22, 124)),
        ..LAWFUL
    },
    Case {
        more: b"\x1f\n",
        told: Err((1, 22, 124)),
        ..LAWFUL
    },
    Case {
        more: b" \n",
        ..LAWFUL
    },
    Case {
        more: b"~\n",
        ..LAWFUL
    },
    Case {
        more: b"%\n\x7f\n",
        told: Err((1, 22, 126)),
        ..LAWFUL
    },
];

// Tags: their form, and how often they occur.
pub const TAGS: [Case; 12] = [
    Case {
        more: b"[aaaaaaaaaaaaaaaaaaaaaaaaaaaaaaa \"x\"]\n",
        ..LAWFUL
    },
    Case {
        more: b"[aaaaaaaaaaaaaaaaaaaaaaaaaaaaaaaa \"x\"]\n",
        told: Err((2, 24, 124)),
        ..LAWFUL
    },
    Case {
        more: b"[ \"x\"]\n",
        told: Err((2, 24, 124)),
        ..LAWFUL
    },
    Case {
        more: b"[Event  \"x\"]\n",
        told: Err((2, 24, 124)),
        ..LAWFUL
    },
    Case {
        more: b"[Event \"x\"\"]\n",
        told: Err((2, 24, 124)),
        ..LAWFUL
    },
    Case {
        more: b"[Event \"x\"] \n",
        told: Err((2, 24, 124)),
        ..LAWFUL
    },
    Case {
        more: b" [Event\n",
        ..LAWFUL
    },
    Case {
        more: b"[board \"7\"]\n",
        ..LAWFUL
    },
    Case {
        board: b"",
        told: Err((2, 25, 0)),
        ..LAWFUL
    },
    Case {
        more: b"[Vulnerable \"None\"]\n",
        told: Err((2, 25, 0)),
        ..LAWFUL
    },
    Case {
        board: b"",
        dealer: b"",
        vulnerable: b"",
        deal: b"",
        told: Err((2, 25, 0)),
        ..LAWFUL
    },
    Case {
        board: DEAL,
        dealer: VULNERABLE,
        vulnerable: DEALER,
        deal: BOARD,
        ..LAWFUL
    },
];

// Board numbers, and the dealer and vulnerability that belong to them.
pub const NUMBERS: [Case; 11] = [
    Case {
        board: b"[Board \"0\"]\n",
        told: Err((3, 26, 0)),
        ..LAWFUL
    },
    Case {
        board: b"[Board \"01\"]\n",
        told: Err((3, 26, 0)),
        ..LAWFUL
    },
    Case {
        board: b"[Board \"\"]\n",
        told: Err((3, 26, 0)),
        ..LAWFUL
    },
    Case {
        board: b"[Board \"1a\"]\n",
        told: Err((3, 26, 0)),
        ..LAWFUL
    },
    Case {
        board: b"[Board \"256\"]\n",
        told: Err((3, 26, 0)),
        ..LAWFUL
    },
    Case {
        board: b"[Board \"255\"]\n",
        dealer: b"[Dealer \"S\"]\n",
        vulnerable: b"[Vulnerable \"NS\"]\n",
        told: Ok((255, 0)),
        ..LAWFUL
    },
    Case {
        dealer: b"[Dealer \"E\"]\n",
        told: Err((3, 27, 12)),
        ..LAWFUL
    },
    Case {
        dealer: b"[Dealer \"n\"]\n",
        told: Err((3, 27, 12)),
        ..LAWFUL
    },
    Case {
        vulnerable: b"[Vulnerable \"All\"]\n",
        told: Err((3, 27, 25)),
        ..LAWFUL
    },
    Case {
        vulnerable: b"[Vulnerable \"Love\"]\n",
        told: Err((3, 27, 25)),
        ..LAWFUL
    },
    Case {
        dealer: b"[Vulnerable \"NS\"]\n",
        vulnerable: b"[Dealer \"W\"]\n",
        told: Err((3, 27, 30)),
        ..LAWFUL
    },
];

// Deals: the chair that comes first, the form, repeated cards and hands of 13.
pub const DEALS: [Case; 14] = [
    Case {
        deal: b"[Deal \"E:AKQJT98765432... .AKQJT98765432.. ..AKQJT98765432. ...AKQJT98765432\"]\n",
        told: Ok((1, 1)),
        ..LAWFUL
    },
    Case {
        deal: b"[Deal \"S:AKQJT98765432... .AKQJT98765432.. ..AKQJT98765432. ...AKQJT98765432\"]\n",
        told: Ok((1, 2)),
        ..LAWFUL
    },
    Case {
        deal: b"[Deal \"W:AKQJT98765432... .AKQJT98765432.. ..AKQJT98765432. ...AKQJT98765432\"]\n",
        told: Ok((1, 3)),
        ..LAWFUL
    },
    Case {
        deal: b"[Deal \"N:.63.AKQ987.A9732 J8654.KQ5.T.QJT6 A973.J98742.3.K4 KQT2.AT.J6542.85\"]\n",
        told: Ok((1, 2)),
        ..LAWFUL
    },
    Case {
        deal: b"[Deal \"\"]\n",
        told: Err((3, 28, 45)),
        ..LAWFUL
    },
    Case {
        deal: b"[Deal \"X:AKQJT98765432... .AKQJT98765432.. ..AKQJT98765432. ...AKQJT98765432\"]\n",
        told: Err((3, 28, 45)),
        ..LAWFUL
    },
    Case {
        deal: b"[Deal \"N AKQJT98765432... .AKQJT98765432.. ..AKQJT98765432. ...AKQJT98765432\"]\n",
        told: Err((3, 28, 45)),
        ..LAWFUL
    },
    Case {
        deal: b"[Deal \"N:AKQJT98765432... .AKQJT98765432.. ..AKQJT98765432.\"]\n",
        told: Err((3, 28, 45)),
        ..LAWFUL
    },
    Case {
        deal: b"[Deal \"N:AKQJT98765432... .AKQJT98765432.. ..AKQJT98765432. ...AKQJT98765432 \"]\n",
        told: Err((3, 28, 45)),
        ..LAWFUL
    },
    Case {
        deal: b"[Deal \"N:AKQJT98765432... .AKQJT98765432.. ..AKQJT98765432. ...AKQJT9876543x\"]\n",
        told: Err((3, 28, 45)),
        ..LAWFUL
    },
    Case {
        deal: b"[Deal \"N:AKQJT98765432.... .AKQJT98765432.. ..AKQJT98765432. ...AKQJT98765432\"]\n",
        told: Err((3, 28, 45)),
        ..LAWFUL
    },
    Case {
        deal: b"[Deal \"N:AAQJT98765432... .AKQJT98765432.. ..AKQJT98765432. ...AKQJT98765432\"]\n",
        told: Err((3, 29, 45)),
        ..LAWFUL
    },
    Case {
        deal: b"[Deal \"N:AKQJT98765432.A.. .KQJT98765432.. ..AKQJT98765432. ...AKQJT98765432\"]\n",
        told: Err((3, 30, 45)),
        ..LAWFUL
    },
    Case {
        deal: b"[Deal \"N:AKQJT98765432.AKQJT98765432.. ... ..AKQJT98765432. ...AKQJT98765432\"]\n",
        told: Err((3, 30, 45)),
        ..LAWFUL
    },
];

// Two faults in one file: the order of the questions decides.
pub const ORDER: [Case; 8] = [
    Case {
        board: b"[x",
        dealer: b"\n",
        more: b"\n\x1f\n",
        told: Err((1, 22, 103)),
        ..LAWFUL
    },
    Case {
        board: b"[Board \"0\"]\n",
        more: b"\x1f\n",
        told: Err((1, 22, 124)),
        ..LAWFUL
    },
    Case {
        board: b"",
        more: b"[x\n",
        told: Err((2, 24, 112)),
        ..LAWFUL
    },
    Case {
        board: b"[Board \"0\"]\n",
        more: b"[Dealer \"N\"]\n",
        told: Err((2, 25, 0)),
        ..LAWFUL
    },
    Case {
        board: b"[Board \"0\"]\n",
        dealer: b"[Dealer \"W\"]\n",
        told: Err((3, 26, 0)),
        ..LAWFUL
    },
    Case {
        vulnerable: b"[Vulnerable \"EW\"]\n",
        deal: b"[Deal \"N\"]\n",
        told: Err((3, 27, 25)),
        ..LAWFUL
    },
    Case {
        deal: b"[Deal \"N:AAQJT98765432... .AKQJT98765432.. ..AKQJT98765432. ...AKQJT9876543x\"]\n",
        told: Err((3, 28, 45)),
        ..LAWFUL
    },
    Case {
        deal: b"[Deal \"N:AKQJT98765432.A.. .KQJT98765432.. ..AKQJT98765432. ...AAQJT98765432\"]\n",
        told: Err((3, 29, 45)),
        ..LAWFUL
    },
];
