//! Plays a list of calls from standard input on a card, and prints each answer.
#![tactic(auto)]

use std::io;
use std::io::Read;

mod answer;
mod cards;
mod choice;
mod command;
mod desk;
mod fault;
mod lines;
mod play;
mod words;

fn main(rt: HostRuntime) -> io::Result<()> {
    let mut input = Vec::new(rt.alloc());
    rt.stdin().read_to_end(&mut input)?;
    play::play(&rt, input.as_slice())
}
