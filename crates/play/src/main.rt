// Plays a day: the file that its argument names, or standard input.
#![tactic(auto)]

use std::io::Read;
use std::{env, fs};

fn day_of(rt: &HostRuntime) -> anyhow::Result<Vec<u8>> {
    let mut words = env::args(rt)?.skip(1);
    match words.next() {
        Some(path) => Ok(fs::read(rt, path.as_str())?),
        None => {
            let mut day = Vec::new(rt.alloc());
            rt.stdin().read_to_end(&mut day)?;
            Ok(day)
        }
    }
}

fn play(rt: &HostRuntime) -> anyhow::Result<()> {
    let day = day_of(rt)?;
    let text = day::said::lines(rt.alloc(), day.as_slice())?;
    rt.print(text.as_str())?;
    Ok(())
}

fn main(rt: HostRuntime) -> anyhow::Result<()> {
    play(&rt)
}
