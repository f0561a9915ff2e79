// Numbers in decimal digits, and board numbers.
ghost use Rattle.std.specs.Prelude.{◌≡◌, ◌≤◌, IfSome};
ghost use Rattle.values.specs.Numbers.{board_number, extended, is_digit, natural};

// Is the byte a decimal digit? It is part of what this crate offers; the crates here ask the library.
pub fn is_digit(byte: u8) -> bool
    ensures digit { result ≡ is_digit byte }
{
    byte.is_ascii_digit()
}

// The number that a digit more makes behind a number, if it is no larger than `most`.
fn extended(number: u32, byte: u8, most: u32) -> Option<u32>
    ensures number { result ≡ extended most number byte }
    ensures small { IfSome result (λ n. n ≤ most) }
{
    let digit = char::from(byte).to_digit(10)?;
    number
        .checked_mul(10)?
        .checked_add(digit)
        .filter(|n| *n <= most)
}

// The number that decimal digits make, if it is no larger than `most`. The library's `parse` would take a
// plus sign too.
pub fn natural(word: &[u8], most: u32) -> Option<u32>
    ensures number { result ≡ natural most word.now }
    ensures small { IfSome result (λ n. n ≤ most) }
{
    if word.is_empty() {
        return None;
    }
    let mut number = 0;
    for byte in word {
        number = extended(number, *byte, most)?;
    }
    Some(number)
}

// The board number that the value of a Board tag says: 1 to 255, without leading zeros.
pub fn board_number(value: &[u8]) -> Option<u8>
    ensures number { result ≡ board_number value.now }
{
    if value.len() > 3 || value.starts_with(b"0") {
        return None;
    }
    u8::try_from(natural(value, 255)?).ok()
}
