//! Adapts a tetrahedral mesh: reads a mesh file, refines the mesh in rounds to the wanted size of
//! edges, by itself or over parts, and writes it in canonical order.
#![tactic(auto)]

mod fetching;
mod halt;
mod laws;
mod lines;
mod measures;
mod part_rounds;
mod parts;
mod putting;
mod rounds;
mod status;
mod storing;
#[cfg(test)]
mod tests;
mod top;
mod words;

use carrier::QueueCarrier;
use ma_io::{DiskDepot, StdSink};
use std::process::ExitCode;
use std::rt::Env;
use std::{env, io};
use top::meshadapt;

/// The words behind the program's own name.
fn words_of<R: Env + AllocGlobal>(rt: &R) -> io::Result<Vec<String>> {
    let mut arguments = env::args(rt)?;
    let _program = arguments.next();
    let mut words = Vec::new(rt.alloc());
    for word in arguments {
        words.push(word)?;
    }
    Ok(words)
}

fn main(rt: HostRuntime) -> ExitCode {
    match words_of(&rt) {
        Ok(words) => {
            let mut depot = DiskDepot::new(&rt);
            let mut out = StdSink::new(&rt);
            let alloc = rt.alloc();
            let mut carrier = QueueCarrier::new(alloc, Vec::new(alloc), Vec::new(alloc));
            let status = meshadapt(alloc, words.as_slice(), &mut depot, &mut carrier, &mut out);
            ExitCode::from(status.code())
        }
        // The system's words are no text, or there is no memory for them.
        Err(error) if error.kind() == io::ErrorKind::InvalidData => ExitCode::from(1),
        Err(_) => ExitCode::from(6),
    }
}
