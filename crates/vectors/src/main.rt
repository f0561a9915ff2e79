// Answers the files that its arguments name, as `sit` does, each under its name.

#![tactic(auto)]

use reply::reply;
use std::io::Write;
use std::{env, fs, io};

fn main(rt: HostRuntime) -> io::Result<()> {
    for name in env::args(&rt)?.skip(1) {
        let file = fs::read(&rt, name.as_str())?;
        let page = reply(file.as_slice());
        println!(rt; "% {name}")?;
        rt.stdout().write_all(page.as_slice())?;
    }
    Ok(())
}
