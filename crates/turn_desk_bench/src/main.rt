//! Threads that count at a turn desk, a turn for each count: `turn_desk_bench THREADS TURNS [times]`.
//! It prints what they counted together and, where a third word is given, the nanoseconds of a turn.
#![tactic(auto)]

mod count;

use count::count_together;
use std::alloc::AllocError;
use std::time::Instant;
use std::{env, io};

fn main(rt: HostRuntime) -> io::Result<()> {
    let mut words = env::args(&rt)?;
    let _program = words.next();
    let threads = number(words.next(), 4);
    let turns = number(words.next(), 250);
    let timed = words.next().is_some();
    let start = Instant::now(&rt)?;
    let Ok(counted) = count_together(&rt, rt.alloc(), threads, turns) else {
        return Err(AllocError.into());
    };
    let spent = start.elapsed(&rt)?;
    println!(rt; "{counted} counted by {threads} threads")?;
    if timed {
        let all = (u128::from(threads) * u128::from(turns)).max(1);
        let each = spent.as_nanos() / all;
        println!(rt; "{each} ns a turn")?;
    }
    Ok(())
}

// The number that the word spells, or this one.
fn number(word: Option<String>, or: u32) -> u32 {
    match word {
        Some(text) => text.as_str().parse::<u32>().unwrap_or(or),
        None => or,
    }
}
