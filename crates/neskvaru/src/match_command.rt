// The command `match`: says whether a resent export is the first one, and if it is not, what differs first.
use crate::export::{Words, export_named, failure_of_refusal};
use crate::failure::Failure;
use either::Left;
use explaining::matched::MatchedLine;
use import::answer::{Matched, Side, Unmatched};
use import::import::matching::Matcher;
use rows::newline::Newline;
use std::io;
use std::process::ExitCode;

// Why the exports are not matched: the refusal is told with the file of its side.
fn failure_of_match<'a>(unmatched: Unmatched, first: Words<'a>, resent: Words<'a>) -> Failure<'a> {
    let (side, row, why) = match unmatched {
        Unmatched::NotTaken { side, why } => (side, 0, why),
        Unmatched::Unread { side, row, why } => (side, row, why),
    };
    match side {
        Side::First => failure_of_refusal(why, row, first),
        Side::Resent => failure_of_refusal(why, row, resent),
    }
}

// Matches the export that the words name with a resent one, and tells how it came out: status 0 where they are the same, and 1 where they differ.
pub fn match_exports<'a>(
    rt: &HostRuntime,
    words: Words<'a>,
    resent: &'a str,
) -> Result<ExitCode, Failure<'a>> {
    let again = Words {
        rule: words.rule,
        family: words.family,
        layout: words.layout,
        file: resent,
    };
    let one = export_named(rt, words)?;
    let other = export_named(rt, again)?;
    // both cut by newline until they take an export
    let mut matcher = Matcher::new(
        rt.alloc(),
        one.family,
        Left(Left(Newline::new())),
        other.family,
        Left(Left(Newline::new())),
    )
    .map_err(io::Error::from)?;
    let answer = matcher.match_resent(&one.layout, one.rule, &one.file, other.rule, &other.file);
    let matched = match answer {
        Ok(matched) => matched,
        Err(unmatched) => return Err(failure_of_match(unmatched, words, again)),
    };
    let line = MatchedLine(matched);
    println!(rt; "{line}")?;
    Ok(match matched {
        Matched::Same => ExitCode::SUCCESS,
        Matched::Differs { .. } => ExitCode::FAILURE,
    })
}
