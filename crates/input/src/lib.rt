// Reading an input whole.

#![tactic(auto)]

ghost use Rattle.std.specs.Prelude.{◌≤◌, length, IfOk};

use std::io;
use std::io::{Read, Stdin};

// The longest input that a program reads, and one byte more, to know a longer one.
pub const MOST: usize = 65_536;

// Reads the input to its end, or until the bytes are full: how many were read? It answers as the
// library's `read` does, whose `read_to_end` would need the heap.
pub fn fill(input: &mut Stdin, bytes: &mut [u8]) -> io::Result<usize>
    ensures within { IfOk result (λ n. n ≤ length bytes.new) }
{
    let mut filled = 0;
    for _ in 0..bytes.len() {
        let read = input.read(&mut bytes[filled..])?;
        if read == 0 {
            break;
        }
        filled += read;
    }
    Ok(filled)
}
