// The program: it reads its words, does what they ask from start to finish, and says what it did.
#![tactic(auto)]

mod explain_command;
mod export;
mod failure;
mod field_command;
mod files;
mod layout_command;
mod match_command;
mod print_command;
mod rows_command;
mod trace_command;

use crate::explain_command::explain_export;
use crate::export::Words;
use crate::failure::Failure;
use crate::field_command::read_field;
use crate::layout_command::print_layout;
use crate::match_command::match_exports;
use crate::print_command::print_export;
use crate::rows_command::list_rows;
use crate::trace_command::trace_export;
use cli::problems::Problem;
use std::env;
use std::process::ExitCode;

// How the program is used.
const HELP: &str = "neskvaru cuts a bank's export into rows and tells, row by row, what it found.

  neskvaru explain RULE FAMILY LAYOUT FILE           why rows are set aside, and where; how many were kept; the tail
  neskvaru match RULE FAMILY LAYOUT FIRST RESENT     whether a resent file is the first one, or which row differs first, and how
  neskvaru rows RULE FILE                            each row with its place, length and mark, the tail, and a summary
  neskvaru trace RULE FAMILY LAYOUT FILE             every row with its report, a record a line; the tail, and the counts
  neskvaru print RULE FAMILY LAYOUT FILE             the file again, written from the reports of its rows alone
  neskvaru layout FAMILY LAYOUT                      the tree of a layout file, one node a line, or why it is refused
  neskvaru field FAMILY KIND P TEXT                  what reading TEXT as a field of that kind gives, or why it cannot be read
  neskvaru help                                      this text, as -h, --help and neskvaru alone

RULE is one of
  newline                  byte 0A ends a row; a closing row without it is a row all the same
  fixed:W                  each W bytes are a row, W from 1 to 4096
  sample:N:RULE            the first N rows of another rule, N from 0 to 16777216

FAMILY is one of
  ascii                    kind 1 whole number (P 0), 2 amount with P decimals (0 to 4), 4 text up to byte P, 6 date (P 0)
  binary                   kind 1 unsigned and 2 signed number of P bytes (1 to 4), 3 P bytes (1 to 255)
  pair:FAMILY:FAMILY       kinds 0 to 31 are the first family's, 32 to 63 the second's less 32

LAYOUT is a layout file, which says what a row is made of; FILE, FIRST and RESENT are exports of at most 16777216 bytes.

A row is ended, or unended: then the file ends before the newline that should end it, and the row is counted all the same.
A row is kept where it was read without a fault, and else set aside. Scrap is the bytes of a row that no part of the layout
took. The tail is the bytes behind all rows that belong to none.
Rows and nodes count from 1, and bytes from 0: a fault 'at 3' is at the fourth byte of its row.

What is refused has a number: 1 to 7 the layout file is wrong, 8 a file is too long, 9 a row has more than 4096 bytes,
10 a row's report would have more than 512 lines at one time, 11 a number in RULE is out of range.
The status is 0 where the command did its work, also where it found faulty rows. It is 1 where something stopped it,
which is told on standard error; and where match finds a difference, which is told on standard output.

For example: neskvaru explain newline ascii samples/invoice.layout samples/faulty.csv
docs/PROGRAM.md has the output of each command, and every refusal with its number.
";

// The words that name an export.
fn export_words<'a>(
    rule: &'a String,
    family: &'a String,
    layout: &'a String,
    file: &'a String,
) -> Words<'a> {
    Words {
        rule: rule.as_str(),
        family: family.as_str(),
        layout: layout.as_str(),
        file: file.as_str(),
    }
}

// What is wrong with a command whose words are not those of its form.
fn misused(command: &str) -> Problem<'_> {
    match command {
        "rows" => Problem::WrongWords("rows RULE FILE"),
        "field" => Problem::WrongWords("field FAMILY KIND P TEXT"),
        "layout" => Problem::WrongWords("layout FAMILY LAYOUT"),
        "trace" => Problem::WrongWords("trace RULE FAMILY LAYOUT FILE"),
        "print" => Problem::WrongWords("print RULE FAMILY LAYOUT FILE"),
        "explain" => Problem::WrongWords("explain RULE FAMILY LAYOUT FILE"),
        "match" => Problem::WrongWords("match RULE FAMILY LAYOUT FIRST RESENT"),
        other => Problem::NoCommand(other),
    }
}

// Does what the words of a command ask.
fn run_command<'a>(
    rt: &HostRuntime,
    command: &'a str,
    rest: &'a [String],
) -> Result<ExitCode, Failure<'a>> {
    match (command, rest) {
        ("rows", [rule, file]) => list_rows(rt, rule.as_str(), file.as_str())?,
        ("field", [family, kind, p, text]) => read_field(
            rt,
            family.as_str(),
            kind.as_str(),
            p.as_str(),
            text.as_str(),
        )?,
        ("layout", [family, file]) => print_layout(rt, family.as_str(), file.as_str())?,
        ("trace", [rule, family, layout, file]) => trace_export(
            rt,
            export_words(rule, family, layout, file),
        )?,
        ("print", [rule, family, layout, file]) => print_export(
            rt,
            export_words(rule, family, layout, file),
        )?,
        ("explain", [rule, family, layout, file]) => explain_export(
            rt,
            export_words(rule, family, layout, file),
        )?,
        ("match", [rule, family, layout, first, resent]) => {
            return match_exports(
                rt,
                export_words(rule, family, layout, first),
                resent.as_str(),
            );
        }
        (command, _) => return Err(misused(command).into()),
    }
    Ok(ExitCode::SUCCESS)
}

// Whether the first word asks how the program is used.
fn asks_help(word: &str) -> bool {
    matches!(word, "help" | "-h" | "--help")
}

// Does what the words ask, and answers the status; the first is the program's own name.
fn run<'a>(rt: &HostRuntime, words: &'a [String]) -> Result<ExitCode, Failure<'a>> {
    match words {
        [_, command, rest @ ..] if !asks_help(command.as_str()) => {
            run_command(rt, command.as_str(), rest)
        }
        _ => {
            rt.print(HELP)?;
            Ok(ExitCode::SUCCESS)
        }
    }
}

// The words that the program was called with.
fn words_of(rt: &HostRuntime) -> anyhow::Result<Vec<String>> {
    Ok(env::args(rt)?.collect(rt.alloc())?)
}

// A problem ends the program with status 1, and so does any other error; both are told.
fn main(rt: HostRuntime) -> ExitCode {
    let words = words_of(&rt);
    let outcome = match &words {
        Ok(words) => run(&rt, words.as_slice()),
        Err(error) => Err(Failure::BadWords(error)),
    };
    match outcome {
        Ok(status) => status,
        Err(failure) => {
            if let Err(error) = failure.tell(&rt) {
                // where standard error cannot be written to, there is nobody left to tell
                let _ = eprintln!(rt; "neskvaru: {error}");
            }
            ExitCode::FAILURE
        }
    }
}
