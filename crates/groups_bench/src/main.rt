//! Arrivals at one Group, in bundles of 64: `groups_bench CELLS ARRIVALS [times]`. It prints how many cells
//! took them and how many panes these fired at the end and, where a third word is given, the nanoseconds of
//! an arrival and of a pane.
#![tactic(auto)]

mod drive;

use drive::{Counts, drive};
use std::alloc::AllocError;
use std::{env, io};

fn main(rt: HostRuntime) -> io::Result<()> {
    let mut words = env::args(&rt)?;
    let _program = words.next();
    let cells = number(words.next(), 100);
    let arrivals = number(words.next(), 1000);
    let timed = words.next().is_some();
    let Ok(counts) = drive(&rt, rt.alloc(), cells, arrivals) else {
        return Err(AllocError.into());
    };
    let Counts {
        cells,
        panes,
        placing,
        firing,
    } = counts;
    println!(rt; "{cells} cells, {panes} panes")?;
    if timed {
        let each = placing / u128::from(arrivals).max(1);
        println!(rt; "{each} ns an arrival")?;
        let each = firing / u128::from(panes).max(1);
        println!(rt; "{each} ns a pane")?;
    }
    Ok(())
}

// The number that the word spells, or this one.
fn number(word: Option<String>, or: u32) -> u32 {
    match word {
        Some(text) => text.as_str().parse::<u32>().unwrap_or(or),
        None => or,
    }
}
