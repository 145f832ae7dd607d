// An export with its rule, family and layout, as the words of a command name them.
use crate::failure::Failure;
use crate::files::read_up_to;
use cli::families::{AnyFamily, family_of};
use cli::problems::Problem;
use cli::rules::{AnyRule, RuleFault, rule_of};
use either::Left;
use import::import::Import;
use import::refusal::Refusal;
use layout::header::longest_file;
use reader::refusal::Refusal as RowRefusal;
use rows::file::LONGEST;
use rows::newline::Newline;
use rows::refusal::Refusal as RulesRefusal;
use std::io;
use tracing::stop::Stop;

// The words of a command.
#[derive(Clone, Copy)]
pub struct Words<'a> {
    pub rule: &'a str,
    pub family: &'a str,
    // the names of two files
    pub layout: &'a str,
    pub file: &'a str,
}

// What they stand for: a rule, a family, and the bytes of both files.
#[derive(Drop)]
pub struct Export {
    pub rule: AnyRule,
    pub family: AnyFamily,
    pub layout: Vec<u8>,
    pub file: Vec<u8>,
}

// The rule that some words stand for.
pub fn rule_named(words: &str) -> Result<AnyRule, Problem<'_>> {
    rule_of(words).map_err(|fault| match fault {
        RuleFault::Unreadable => Problem::NoRule(words),
        RuleFault::Refused(refusal) => Problem::Refused(refusal, words),
    })
}

// The first bytes of a file, so many at most.
fn read<'a>(rt: &HostRuntime, name: &'a str, most: usize) -> Result<Vec<u8>, Failure<'a>> {
    read_up_to(rt, name, most).map_err(|error| Failure::Unreadable(name, error))
}

// Judges the words of rule and family, and reads both files.
pub fn export_named<'a>(rt: &HostRuntime, words: Words<'a>) -> Result<Export, Failure<'a>> {
    let rule = rule_named(words.rule)?;
    let family = family_of(words.family).ok_or(Problem::NoFamily(words.family))?;
    // a byte more than the longest is refused like the whole of a longer file
    let layout = read(rt, words.layout, longest_file() + 1)?;
    let file = read(rt, words.file, LONGEST + 1)?;
    Ok(Export {
        rule,
        family: AnyFamily::from(family),
        layout,
        file,
    })
}

// An import for exports of a family: it is empty, and cuts by newline until it takes an export with that export's rule.
pub fn empty_import(rt: &HostRuntime, family: AnyFamily) -> io::Result<Import<AnyFamily, AnyRule>> {
    Ok(Import::empty(rt.alloc(), family, Left(Left(Newline::new())))?)
}

// A refusal of the import in the words of what is refused: the export, its layout file, or a row.
fn problem_of<'a>(refusal: Refusal, row: u32, words: Words<'a>) -> Option<Problem<'a>> {
    let row = row as usize;
    match refusal {
        Refusal::Layout(refusal) => Some(Problem::RefusedLayout(refusal, words.layout)),
        Refusal::FileTooLong => Some(Problem::Refused(RulesRefusal::FileTooLong, words.file)),
        Refusal::RowTooLong => Some(Problem::Unread(row, RowRefusal::RowTooLong, words.file)),
        Refusal::ReachTooFar => Some(Problem::Unread(row, RowRefusal::TooManyLines, words.file)),
        // of an import with nothing open these are not said
        Refusal::OtherLength
        | Refusal::WrongMoment
        | Refusal::OtherRow
        | Refusal::RowHasFaults
        | Refusal::BufferTooShort => None,
    }
}

// The same as a failure of the command.
pub fn failure_of_refusal<'a>(refusal: Refusal, row: u32, words: Words<'a>) -> Failure<'a> {
    match problem_of(refusal, row, words) {
        Some(problem) => problem.into(),
        None => Failure::Other(anyhow::Error::from(refusal)),
    }
}

// Why a pass over the export ended early.
pub fn failure_of<'a>(stop: Stop, words: Words<'a>) -> Failure<'a> {
    match stop {
        Stop::Refused(refusal) => failure_of_refusal(refusal, 0, words),
        Stop::Unread { row, refusal } => failure_of_refusal(refusal, row, words),
        Stop::Output(error) => Failure::from(error),
    }
}
