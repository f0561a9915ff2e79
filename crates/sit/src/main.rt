// Reads a deal file from standard input, and prints its deal or its fault.

#![tactic(auto)]

use input::{MOST, fill};
use reply::reply;
use std::io;
use std::io::Write;

fn main(rt: HostRuntime) -> io::Result<()> {
    let mut bytes = [0; MOST];
    let length = fill(&mut rt.stdin(), &mut bytes)?;
    let page = reply(&bytes[0..length]);
    rt.stdout().write_all(page.as_slice())
}
