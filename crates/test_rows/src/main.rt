//! `test_rows`: answers rows about calls of libraries, each by the crate of its part.
//!
//! Standard input has blocks. A block begins with a line `part NAME`, and goes up to the next one. The line is written back, and what is
//! answered follows it. `parts`, `wire` and `replica` have rows on lines, `texts` has blocks of its own; a block `groups` is a plan, one of
//! `worlds` or `workers` a script. The crate `test_NAME` says how they are written.
#![tactic(auto)]

use std::alloc::{AllocError, Global};
use std::io::{self, Read};
use std::sync::Wait;
use std::thread::Threads;
use test_words::parts;

fn main(rt: HostRuntime) -> io::Result<()> {
    let mut text = String::new(rt.alloc());
    rt.reader().read_to_string(&mut text)?;
    for block in text.as_str().split("\npart ") {
        let said = answered(&rt, rt.alloc(), block)?;
        print!(rt; "{said}")?;
    }
    Ok(())
}

/// Returns the head of a block and what is answered to it.
fn answered<R: Threads + Wait + Sync>(
    rt: &R,
    alloc: Global,
    block: &str,
) -> Result<String, AllocError> {
    let (name, rows) = parts(block.strip_prefix("part ").unwrap_or(block), '\n');
    let said = match name {
        "workers" => test_workers::answer_rows(rt, alloc, rows)?,
        _ => answer(alloc, name, rows)?,
    };
    format!(in alloc; "part {name}\n{said}")
}

/// Returns what the part of a name answers to rows.
fn answer(alloc: Global, name: &str, rows: &str) -> Result<String, AllocError> {
    match name {
        "parts" => test_parts::answer_rows(alloc, rows),
        "wire" => test_wire::answer_rows(alloc, rows),
        "replica" => test_replica::answer_rows(alloc, rows),
        "texts" => test_texts::answer_rows(alloc, rows),
        "groups" => test_groups::answer_rows(alloc, rows),
        "worlds" => test_worlds::answer_rows(alloc, rows),
        _ => String::from_str(alloc, "there is no such part\n"),
    }
}
