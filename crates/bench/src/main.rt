// A program to measure with: it cuts, reads, prints, files or matches an export so many times, and says what came.
#![tactic(auto)]

mod pass;

use crate::pass::{Counts, Files, Memory, Work};
use layout::header::longest_file;
use rows::file::LONGEST;
use std::fs::File;
use std::io::Read;
use std::{env, io};

const HELP: &str = "bench WORK TIMES LAYOUT FILE

WORK is cut, read, print, file, or match; rows end at byte 0A, and fields are of the ASCII family.
Match is of the file and a second copy of it, and does not count rows. Under 0 times the files are read and nothing else is done.
";

// The first bytes of a file, so many at most.
fn read_up_to(rt: &HostRuntime, name: &str, most: usize) -> io::Result<Vec<u8>> {
    let file = File::open(rt, name)?;
    let mut bytes = Vec::new(rt.alloc());
    file.take(most as u64).read_to_end(&mut bytes)?;
    Ok(bytes)
}

// The memory is taken before the first time, and no time takes any.
fn measure(
    rt: &HostRuntime,
    work: Work,
    times: usize,
    layout: &str,
    file: &str,
) -> anyhow::Result<()> {
    let layout = read_up_to(rt, layout, longest_file() + 1)?;
    let export = read_up_to(rt, file, LONGEST)?;
    let copy = read_up_to(rt, file, LONGEST)?;
    let mut memory = Memory::new(rt.alloc())?;
    if !memory.load(layout.as_slice()) {
        eprintln!(rt; "bench: the layout is refused")?;
        return Ok(());
    }
    let files = Files {
        layout: layout.as_slice(),
        export: export.as_slice(),
        copy: copy.as_slice(),
    };
    let mut counts = Counts::NONE;
    for _ in 0..times {
        counts = memory.pass(work, files);
    }
    let Counts {
        rows,
        refused,
        faulty,
        printed,
        differing,
    } = counts;
    println!(rt;
        "rows {rows}, refused {refused}, faulty {faulty}, bytes printed {printed}, differing {differing}"
    )?;
    Ok(())
}

fn main(rt: HostRuntime) -> anyhow::Result<()> {
    let words: Vec<String> = env::args(&rt)?.collect(rt.alloc())?;
    if let [_, work, times, layout, file] = words.as_slice() {
        let work = match work.as_str() {
            "cut" => Some(Work::Cut),
            "read" => Some(Work::Read),
            "print" => Some(Work::Print),
            "file" => Some(Work::File),
            "match" => Some(Work::Match),
            _ => None,
        };
        if let (Some(work), Ok(times)) = (work, times.parse::<usize>()) {
            return measure(&rt, work, times, layout.as_str(), file.as_str());
        }
    }
    print!(rt; "{HELP}")?;
    Ok(())
}
