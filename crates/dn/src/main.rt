//! The program `dn`: the write path of HDFS DataNodes, run in one process.
#![tactic(auto)]

use dn_run::{Exit, folder_of, folder_shelves, run_in_memory, run_over};
use std::process::ExitCode;
use std::{env, io};

/// Runs the script on standard input, and writes its report to standard output. The nodes' files are in memory, or in the
/// folder that the words name. Where the exit isn't `Done`, its number and name stand on standard error. The exit's number
/// is the status.
fn main(rt: HostRuntime) -> io::Result<ExitCode> {
    let alloc = rt.alloc();
    let mut words = Vec::new(alloc);
    for word in env::args(&rt)?.skip(1) {
        words.push(word)?;
    }
    let exit = match folder_of(alloc, &words) {
        Ok(None) => run_in_memory(alloc, &words, rt.stdin(), rt.stdout()),
        Ok(Some(folder)) => match folder_shelves(rt, folder.as_str()) {
            Ok(shelves) => run_over(alloc, &words, rt.stdin(), rt.stdout(), shelves),
            Err(_) => Exit::Memory,
        },
        Err(_) => Exit::Memory,
    };
    if exit != Exit::Done {
        let status = exit.status();
        let name = exit.name();
        eprintln!(rt; "{status} {name}")?;
    }
    Ok(ExitCode::from(exit.status()))
}
