// Seals one overlay: `seal ENGINE` reads a key of 16 bytes and then the overlay from standard input,
// `seal ENGINE --key HEX` the overlay alone.
#![tactic(auto)]

use std::alloc::{AllocError, Global};
use std::env;
use std::io::Read;

// More than any input that is accepted: 16 bytes of key, 65,536 of overlay, and one that is too many.
const INPUT_BYTES: u64 = 65_553;

// The text for the arguments behind the program's name.
fn text(alloc: Global, args: &[String], input: &[u8]) -> Result<String, AllocError> {
    match args {
        [] => report::engine_names(alloc),
        [name] => report::seal_input(alloc, name.as_str(), input),
        [name, flag, digits] if flag.as_str() == "--key" => report::seal_key(
            alloc,
            name.as_str(),
            digits.as_str(),
            input,
        ),
        _ => String::from_str(alloc, "usage: seal ENGINE [--key HEX]\n"),
    }
}

fn main(rt: HostRuntime) -> anyhow::Result<()> {
    let alloc = rt.alloc();
    let args: Vec<String> = env::args(&rt)?.skip(1).collect(alloc)?;
    let mut input = Vec::new(alloc);
    rt.stdin().take(INPUT_BYTES).read_to_end(&mut input)?;
    rt.print(text(alloc, &args, &input)?)?;
    Ok(())
}
