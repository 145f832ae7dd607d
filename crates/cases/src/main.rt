// Runs the cases of a file through the library, and tells how many agree and where the others differ.
#![tactic(auto)]

mod answer;
mod case;
mod compare;

use crate::answer::answer;
use crate::case::{Case, case_in};
use crate::compare::first_difference;
use anyhow::{Context, Result, anyhow};
use std::{env, fs, str};

// What closes a case.
const END: &str = "\nend\n";

// How many cases there were, and how many of them agree.
#[derive(Clone, Copy)]
struct Tally {
    cases: u32,
    agree: u32,
}

// Whether a case agrees; where it does not, its name and the first lines that differ are printed.
fn agrees(rt: &HostRuntime, case: &Case) -> Result<bool> {
    let mut bytes = Vec::new(rt.alloc());
    let name = case.name;
    answer(rt.alloc(), case, &mut bytes).context(format_args!("case {name}"))?;
    let written = str::from_utf8(&bytes)?;
    let Some(found) = first_difference(case.wanted, written) else {
        return Ok(true);
    };
    let wanted = found.wanted.unwrap_or("(nothing)");
    let written = found.written.unwrap_or("(nothing)");
    println!(rt; "{name}: wanted: {wanted}, written: {written}")?;
    Ok(false)
}

// Runs every case in some text.
fn run_all(rt: &HostRuntime, text: &str) -> Result<Tally> {
    let mut tally = Tally { cases: 0, agree: 0 };
    for block in text.split(END) {
        if block.is_empty() {
            continue;
        }
        tally.cases = tally.cases.saturating_add(1);
        let number = tally.cases;
        let case = match case_in(block) {
            Ok(case) => case,
            Err(fault) => return Err(anyhow!("case {number} of the file: {fault}")),
        };
        if agrees(rt, &case)? {
            tally.agree = tally.agree.saturating_add(1);
        }
    }
    Ok(tally)
}

// The file that the one word of the command names.
fn main(rt: HostRuntime) -> Result<()> {
    let words = env::args(&rt)?.collect::<Vec<_>>(rt.alloc())?;
    let [_, name] = words.as_slice() else {
        return Err(anyhow!("write: cases FILE"));
    };
    let text = fs::read_to_string(&rt, name.as_str())?;
    let Tally { cases, agree } = run_all(&rt, text.as_str())?;
    println!(rt; "{agree} of {cases} cases agree")?;
    if agree < cases {
        return Err(anyhow!("not all cases agree"));
    }
    Ok(())
}
