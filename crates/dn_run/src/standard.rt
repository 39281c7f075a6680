//! The program's run, over the ports that its words name.

ghost use Rattle.std.specs.Prelude.{◌≡◌, IfOk, length, map};
ghost use Rattle.std.specs.String.{string_bytes};
ghost use Rattle.hd_base.specs.declared.roads.TheConstants.{MAX_NODES};
ghost use Rattle.dn_run.specs.Exits.{is_told};
ghost use Rattle.dn_run.specs.Runs.{folder_named};
ghost use Rattle.dn_run.specs.Tasks.{task_of, UsageFor};

use crate::exits::Exit;
use crate::running::run;
use fault_ports::{Cutting, Fused};
use hd_base::{MAX_NODES, Shelf};
use itoa::Buffer;
use mem_ports::{MemRoads, MemShelf};
use real_ports::{FolderShelf, StdSink, StdSource};
use run_words::{FolderText, WordsFault, read_words};
use std::alloc::{AllocError, Global};
use std::fs::{File, Files as System};
use std::io::{Read, Write};
use told_shelves::ToldShelf;
use whole_play::new_roads_are_unused;

/// The folder that the words name for the nodes' files; none where they name none or break a rule.
pub fn folder_of(alloc: Global, words: &[String]) -> Result<Option<FolderText>, AllocError>
    ensures { IfOk result (λ folder. folder ≡ folder_named (map string_bytes words.now)) }
{
    match read_words(alloc, words) {
        Ok(said) => Ok(said.folder),
        Err(WordsFault::Usage { .. }) => Ok(None),
        Err(WordsFault::Memory) => Err(AllocError),
    }
}

/// Shelves for all the nodes that there may be, in this folder: node k has its files in the folder `dnk`. An empty path is
/// the present folder.
pub fn folder_shelves<H>(rt: H, folder: &str) -> Result<Vec<FolderShelf<H>>, AllocError>
where
    H: System<File = File> + AllocGlobal + Clone + Drop + Send,
    ensures { IfOk result (λ shelves. length shelves.items ≡ MAX_NODES) }
{
    let alloc = rt.alloc();
    let mut shelves = Vec::new(alloc);
    for node in 0..MAX_NODES {
        let path = node_folder(alloc, folder, node)?;
        shelves.push(FolderShelf::new(alloc, rt.clone()?, path.as_str())?)?;
    }
    Ok(shelves)
}

/// The path of a node's folder in this one.
fn node_folder(alloc: Global, folder: &str, node: u32) -> Result<String, AllocError> {
    let mut path = String::from_str(alloc, folder)?;
    if !folder.is_empty() {
        path.push('/')?;
    }
    path.push_str("dn")?;
    path.push_str(Buffer::new().format(node))?;
    Ok(path)
}

/// Empty shelves in memory for all the nodes that there may be.
fn memory_shelves(alloc: Global) -> Result<Vec<MemShelf>, AllocError> {
    let mut shelves = Vec::new(alloc);
    for _ in 0..MAX_NODES {
        shelves.push(MemShelf::new(alloc, &[])?)?;
    }
    Ok(shelves)
}

/// Runs the script that a reader gives, over empty shelves and roads in memory, and writes its report to a writer.
pub fn run_in_memory<R: Read + Drop, W: Write + Drop>(
    alloc: Global,
    words: &[String],
    input: R,
    output: W,
) -> Exit
    ensures { UsageFor (task_of (map string_bytes words.now)) result }
{
    match memory_shelves(alloc) {
        Ok(shelves) => run_over(alloc, words, input, output, shelves),
        Err(_) => Exit::Memory,
    }
}

/// Runs the script that a reader gives, over these shelves and roads in memory, and writes its report to a writer.
pub fn run_over<S: ToldShelf, R: Read + Drop, W: Write + Drop>(
    alloc: Global,
    words: &[String],
    input: R,
    output: W,
    shelves: Vec<S>,
) -> Exit
    ensures { UsageFor (task_of (map string_bytes words.now)) result }
{
    match run_with(alloc, words, input, output, shelves) {
        Ok(exit) => exit,
        Err(_) => Exit::Memory,
    }
}

/// The same, where memory for the other ports may run out.
fn run_with<S: ToldShelf, R: Read + Drop, W: Write + Drop>(
    alloc: Global,
    words: &[String],
    input: R,
    output: W,
    shelves: Vec<S>,
) -> Result<Exit, AllocError>
    ensures { IfOk result (UsageFor (task_of (map string_bytes words.now))) }
{
    new_roads_are_unused::<Cutting<MemRoads>>();
    let mut roads = Cutting::new(alloc, MemRoads::new(alloc, &[])?);
    let mut source = StdSource {
        inner: input,
        faults: 0,
    };
    let mut sink = StdSink::new(alloc, output)?;
    let mut shelves = refusing_shelves(alloc, shelves)?;
    let exit = run(
        alloc,
        words,
        &mut source,
        &mut sink,
        &mut shelves,
        &mut roads,
    );
    if is_told(&exit) && sink.flush().is_err() {
        return Ok(Exit::ReportFault);
    }
    Ok(exit)
}

/// The shelves, of which writes on data files can be refused.
fn refusing_shelves<S: Shelf>(alloc: Global, shelves: Vec<S>) -> Result<Vec<Fused<S>>, AllocError> {
    let mut refusing = Vec::new(alloc);
    for shelf in shelves {
        let Ok(fused) = Fused::new(shelf) else {
            unreachable!();
        };
        refusing.push(fused)?;
    }
    Ok(refusing)
}

/// Whether a whole report was written before the exit.
fn is_told(exit: &Exit) -> bool
    ensures { result ≡ is_told exit.now }
{
    matches!(exit, Exit::Done | Exit::Differs { .. })
}
