// A page holds the text that is put on it, one piece behind another, as far as there is room.
use crate::bytes::Bytes;

// How much a page holds: more than any record of a board.
pub const ROOM: usize = 2048;

pub type Page = Bytes<ROOM>;
