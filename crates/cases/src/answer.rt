// What the library answers to a case.
use crate::case::Case;
use anyhow::{Context, Result, anyhow};
use cli::families::{AnyFamily, family_of};
use cli::rules::{AnyRule, RuleFault, rule_of};
use either::Left;
use import::import::Import;
use records::record::Record;
use rows::newline::Newline;
use std::alloc::Global;
use std::io::Write;
use tracing::stop::Stop;
use tracing::trace::write_trace;

// The bytes that hexadecimal digits stand for.
fn bytes_of(heap: Global, digits: &str) -> Result<Vec<u8>> {
    Ok(hex::decode(heap, digits).context("hexadecimal digits")?)
}

// A refusal is the whole answer.
fn refuse(number: u8, out: &mut Vec<u8>) -> Result<()> {
    out.writeln(Record::Refused(number))?;
    Ok(())
}

// Writes the trace of a case, or the number of its refusal.
pub fn answer(heap: Global, case: &Case, out: &mut Vec<u8>) -> Result<()> {
    let rule = match rule_of(case.rule) {
        Ok(rule) => rule,
        Err(RuleFault::Refused(refusal)) => return refuse(refusal.number(), out),
        Err(RuleFault::Unreadable) => return Err(anyhow!("no rule")),
    };
    let Some(words) = family_of(case.family) else {
        return Err(anyhow!("no family"));
    };
    let layout = bytes_of(heap, case.layout)?;
    let export = bytes_of(heap, case.export)?;
    // it cuts by newline until it takes the export
    let unset: AnyRule = Left(Left(Newline::new()));
    let mut import = Import::empty(heap, AnyFamily::from(words), unset)?;
    match write_trace(&mut import, rule, &layout, &export, out) {
        Ok(()) => Ok(()),
        Err(Stop::Refused(refusal)) => refuse(refusal.number(), out),
        Err(Stop::Unread { refusal, .. }) => refuse(refusal.number(), out),
        Err(Stop::Output(error)) => Err(error.into()),
    }
}
