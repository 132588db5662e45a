// Runs the calls of one voyage over an overlay under AES-128, and shows that operations, slips and accounts balance.
// Standard input is text: a line `key` with 32 hex digits, then a call a line.
#![tactic(auto)]

mod command;
mod desk;
mod shown;

use aes::Aes128;
use command::Command;
use desk::{Desk, settle};
use engine::{Keyed, Numbered};
use keys::key_from;
use overlay::{Answer, Ledger, Open};
use std::alloc::{AllocError, Global};
use std::io::Read;

// The operations that the engine is made with.
const ALLOWANCE: u32 = 1_000_000;

// The memory that the overlay lies in, in bytes.
const MEMORY_BYTES: usize = 65_536;

// No more of standard input is read.
const INPUT_BYTES: u64 = 16_777_216;

// What is shown of the calls in all lines but the first.
fn run_lines(alloc: Global, desk: &mut Desk, input: &str) -> Result<String, AllocError> {
    let mut text = String::new(alloc);
    for (i, line) in input.lines().enumerate().skip(1) {
        let shown = match Command::try_from(line) {
            Ok(command) => desk.run(alloc, command)?,
            Err(_) => None,
        };
        let number = i.saturating_add(1);
        match shown {
            Some(shown) => writeln!(text, "{number} {shown}")?,
            None => writeln!(text, "{number} bad line")?,
        }
    }
    Ok(text)
}

// Opens an overlay under a key, and runs the calls.
fn voyage(alloc: Global, key: &[u8], input: &str) -> Result<String, AllocError> {
    let engine = match Aes128::new(key, ALLOWANCE) {
        Ok(engine) => engine,
        Err(fault) => return bad_key(alloc, fault),
    };
    let memory = vec![in alloc; 0u8; MEMORY_BYTES]?;
    let Answer { outcome, slip } = Open::new(engine, &memory);
    match outcome {
        Ok(overlay) => sail(alloc, Desk::new(alloc, overlay, memory, slip), input),
        Err(refused) => {
            settle(&mut Ledger::new(0), slip);
            let number = refused.fault.number();
            format!(in alloc; "1 open {number}\n")
        }
    }
}

// All calls, the slips that they leave open, and the balance.
fn sail(alloc: Global, mut desk: Desk, input: &str) -> Result<String, AllocError> {
    let calls = run_lines(alloc, &mut desk, input);
    let open = desk.open_slips(alloc);
    let balance = desk.settle();
    let calls = calls?;
    let open = open?;
    format!(in alloc;
        "line call number bits operations slip tag\n1 open 0 0 1 0\n{calls}{open}{balance}"
    )
}

// What is shown for a key that is refused.
fn bad_key<F: Numbered>(alloc: Global, fault: F) -> Result<String, AllocError> {
    let number = fault.number();
    format!(in alloc; "1 key {number}\n")
}

// What is shown of a whole input.
fn text_of(alloc: Global, input: &str) -> Result<String, AllocError> {
    let first = input.lines().next().unwrap_or("");
    let Some(digits) = first.strip_prefix("key ") else {
        return String::from_str(alloc, "1 bad line\n");
    };
    match key_from(digits) {
        Ok(key) => voyage(alloc, &key, input),
        Err(fault) => bad_key(alloc, fault),
    }
}

fn main(rt: HostRuntime) -> anyhow::Result<()> {
    let alloc = rt.alloc();
    let mut input = String::new(alloc);
    rt.stdin().take(INPUT_BYTES).read_to_string(&mut input)?;
    rt.print(text_of(alloc, input.as_str())?)?;
    Ok(())
}
