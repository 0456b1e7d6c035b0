//! readcard KIND ITEMS: reads the card on standard input into an order book, and prints the place
//! of each item, or the number and place of the refusal.
#![tactic(auto)]

use anyhow::{Context, bail};
use std::env;
use std::io::Read;
use std::process::ExitCode;

mod answer;
mod line;

fn run(rt: &HostRuntime) -> anyhow::Result<()> {
    let mut args = env::args(rt)?;
    let _program = args.next();
    let (Some(kind), Some(items), None) = (args.next(), args.next(), args.next()) else {
        bail!("usage: readcard KIND ITEMS, with the card on standard input");
    };
    let kind = kind.parse()?;
    let items = items
        .parse()
        .context("ITEMS is no number below 2 to the 64th")?;
    let mut card = Vec::new(rt.alloc());
    rt.stdin().read_to_end(&mut card)?;
    for line in &answer::answer(rt.alloc(), kind, items, &card)? {
        rt.println(line)?;
    }
    Ok(())
}

fn main(rt: HostRuntime) -> ExitCode {
    match run(&rt) {
        Ok(()) => ExitCode::SUCCESS,
        Err(e) => {
            let _ = eprintln!(rt; "readcard: {e}");
            ExitCode::FAILURE
        }
    }
}
