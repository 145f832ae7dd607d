// Files the rows of a small export under their slips, and tells what became of each.
#![tactic(auto)]

mod filing;

use crate::filing::{Fate, file_next, keep_then_set_aside, set_next_aside};
use anyhow::{Error, Result, anyhow};
use fields::ascii::Ascii;
use import::answer::Counts;
use import::import::Import;
use import::refusal::Refusal;
use report::worked::worked_examples;
use rows::newline::Newline;

// A good row, one of a day that its month lacks, and a good closing row without a newline.
const EXPORT: &[u8] = b"17,2024-02-29,-12.50\n18,2023-02-29,4.00\n19,2024-03-05,310.00";

// A refusal ends the program.
fn refused(why: Refusal) -> Error {
    let number = why.number();
    anyhow!("refused, number {number}")
}

// What became of a row, in words.
fn words(fate: Fate) -> &'static str {
    match fate {
        Fate::Kept => "kept",
        Fate::SetAside(Refusal::RowHasFaults) => "set aside, for it has faults",
        Fate::SetAside(_) => "set aside, for it cannot be read",
    }
}

// Tells how many rows were opened, and how many were filed in each way.
fn tell_counts(rt: &HostRuntime, import: &Import<Ascii, Newline>) -> Result<()> {
    let Counts {
        opened,
        kept,
        set_aside,
    } = import.counts().map_err(refused)?;
    println!(rt; "rows opened: {opened}, kept: {kept}, set aside: {set_aside}")?;
    Ok(())
}

// Files every row, and tells what became of it. There are no more rows than bytes.
fn file_all(rt: &HostRuntime, import: &mut Import<Ascii, Newline>) -> Result<()> {
    for row in 1..=EXPORT.len() {
        match file_next(import, EXPORT).map_err(refused)? {
            Some(fate) => println!(rt; "row {row}: {}", words(fate))?,
            None => break,
        }
    }
    tell_counts(rt, import)
}

fn main(rt: HostRuntime) -> Result<()> {
    let layout = worked_examples().layout;
    let mut import = Import::empty(rt.alloc(), Ascii, Newline::new())?;
    import
        .new(1, layout, Newline::new(), EXPORT)
        .map_err(refused)?;
    file_all(&rt, &mut import)?;
    println!(rt; "again, the first row kept and the second set aside:")?;
    import
        .new(2, layout, Newline::new(), EXPORT)
        .map_err(refused)?;
    keep_then_set_aside(&mut import, EXPORT).map_err(refused)?;
    tell_counts(&rt, &import)?;
    println!(rt; "and the third set aside unread:")?;
    set_next_aside(&mut import, EXPORT).map_err(refused)?;
    tell_counts(&rt, &import)
}
