//! Prints the example metagrammar twice: what is printed of it is read and printed again.
//!
//! The program reads `english.mg` of the folder that it is run in, and says how many items it has
//! and whether its canonical spelling is spelled as itself. It ends with 1 where that isn't so, with
//! 3 where the file is refused, with 4 where it can't be read, and with 6 for want of memory.
#![tactic(auto)]

use gr_base::Memory;
use gr_symbols::Symbols;
use mg_printer::print_metagrammar;
use mg_reader::read_metagrammar;
use std::alloc::Global;
use std::fs;
use std::process::ExitCode;

/// The most bytes of a metagrammar.
const MOST_BYTES: usize = 1_048_576;

/// What is printed of a metagrammar, and of how many items.
#[derive(Drop)]
struct Spelling {
    items: usize,
    text: String,
}

/// The canonical spelling of what the bytes spell, `None` where they are refused.
fn printed(alloc: Global, bytes: &[u8]) -> Result<Option<Spelling>, Memory> {
    if bytes.len() > MOST_BYTES {
        return Ok(None);
    }
    let mut symbols = Symbols::new(alloc)?;
    let Ok(metagrammar) = read_metagrammar(alloc, bytes, &mut symbols) else {
        return Ok(None);
    };
    let text = print_metagrammar(alloc, &metagrammar, &symbols)?;
    Ok(Some(Spelling {
        items: metagrammar.len(),
        text,
    }))
}

/// Prints the bytes' canonical spelling, and that of the spelling.
fn reprint(rt: &HostRuntime, bytes: &[u8]) -> Result<ExitCode, Memory> {
    let alloc = rt.alloc();
    let Some(first) = printed(alloc, bytes)? else {
        return Ok(ExitCode::from(3));
    };
    let Some(second) = printed(alloc, first.text.as_str().as_bytes())? else {
        return Ok(ExitCode::from(1));
    };
    if first.text.as_str() != second.text.as_str() {
        return Ok(ExitCode::from(1));
    }
    // What standard output answers changes no status.
    let _ = println!(rt;
        "{} items in {} bytes are printed as they were",
        first.items,
        first.text.as_str().len()
    );
    Ok(ExitCode::from(0))
}

fn main(rt: HostRuntime) -> ExitCode {
    let Ok(bytes) = fs::read(&rt, "english.mg") else {
        return ExitCode::from(4);
    };
    match reprint(&rt, bytes.as_slice()) {
        Ok(code) => code,
        Err(Memory) => ExitCode::from(6),
    }
}
