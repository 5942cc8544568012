//! Fills the text of a method on the trial card: prints the filled text, or why it is refused.
#![tactic(auto)]

ghost use Rattle.std.specs.Prelude.{◌≤◌, length, IfOk};

use classes::climbing::Climbing;
use filler::fill::fill;
use std::io;
use std::io::{Read, Write};
use verifier::env::Env;

mod card;

// A text is at most this long; what stands behind it in the input is not looked at.
const MAX_TEXT: usize = 8192;

// Fills the buffer from the input, as far as that goes, and answers how many bytes came.
// By hand into a fixed array, so that the program needs no heap: a `Vec` would come to rest on what is assumed of one.
fn take_input(input: &mut impl Read, buffer: &mut [u8]) -> io::Result<usize>
    ensures { IfOk result (λ n. n ≤ length buffer.old) }
{
    let mut len = 0;
    for _ in 0..MAX_TEXT {
        let got = input.read(&mut buffer[len..])?;
        if got == 0 {
            break;
        }
        len += got;
    }
    Ok(len)
}

fn main(rt: HostRuntime) -> io::Result<()> {
    let mut text = [0u8; MAX_TEXT];
    let len = take_input(&mut rt.stdin(), &mut text)?;
    let table: Climbing = card::trial_classes();
    let entries = card::trial_entries();
    // An array and the length written into it, since `fill` writes into memory that it is lent.
    let mut buffer = [0u8; MAX_TEXT];
    let env = Env {
        table: &table,
        entries: &entries,
    };
    match fill(&env, &text[0..len], &mut buffer) {
        Ok((written, _)) => rt.stdout().write_all(&buffer[0..written]),
        Err(refusal) => println!(rt; "{refusal}"),
    }
}
