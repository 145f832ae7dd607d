// A faulty row's report, printed and framed.
ghost use Rattle.std.specs.Prelude.{◌≡◌};

use fields::ascii::Ascii;
use layout::table::Layout;
use printer::{print, print_framed, printed_length};
use report::line::Line;
use report::outcome::Outcome;
use report::worked::worked_examples;
use rows::newline::Newline;
use rows::piece::Mark;
use rows::refusal::Refusal;
use std::alloc::{AllocError, Global};
use store::memory::Report;
use store::memory::made::{LONGEST_ROW, MOST_LINES};

// A line of a report.
fn line(node: u16, outcome: Outcome, start: usize, length: usize, number: i64) -> Line
    ensures { result.outcome ≡ outcome }
{
    Line {
        node,
        outcome,
        start,
        length,
        number,
    }
}

// What reading 17,2023-02-29,-12.50 gives: there is no such day.
fn faulty(heap: Global) -> Result<Report, AllocError> {
    let mut lines = Vec::with_capacity(heap, MOST_LINES + 2)?;
    lines.extend_from_slice(&[
        line(1, Outcome::FaultBelow, 0, 20, 0),
        line(2, Outcome::Good, 0, 2, 17),
        line(3, Outcome::Good, 2, 1, 0),
        line(4, Outcome::SyntaxFault, 3, 0, 3),
        line(5, Outcome::Scrap, 3, 10, 0),
        line(5, Outcome::Good, 13, 1, 0),
        line(6, Outcome::Good, 14, 6, -1250),
    ])?;
    let mut text = Vec::with_capacity(heap, LONGEST_ROW)?;
    text.extend_from_slice(b"2023-02-29")?;
    Ok(Report {
        lines,
        text,
        faults: 1,
        row_length: 20,
        frame_length: 21,
    })
}

#[test]
fn a_faulty_row_is_printed(rt: HostRuntime) {
    let examples = worked_examples();
    let mut layout = Layout::new(rt.alloc()).expect(&rt, "memory");
    assert!(rt; layout.load(&Ascii, examples.layout).is_ok());
    let report = faulty(rt.alloc()).expect(&rt, "memory");
    assert_eq!(rt; printed_length(&layout, &Ascii, &report), 20);
    let mut out = [0xAA; 24];
    assert_eq!(rt; print(&layout, &Ascii, &report, &mut out), Ok(20));
    assert_eq!(rt; out, *b"17,2023-02-29,-12.50\xAA\xAA\xAA\xAA");
    let rule = Newline::new();
    let framed = print_framed(&rule, Mark::Ended, &layout, &Ascii, &report, &mut out);
    assert_eq!(rt; framed, Ok(21));
    assert_eq!(rt; out, *b"17,2023-02-29,-12.50\n\xAA\xAA\xAA");
}

#[test]
fn a_short_buffer_is_left(rt: HostRuntime) {
    let examples = worked_examples();
    let mut layout = Layout::new(rt.alloc()).expect(&rt, "memory");
    assert!(rt; layout.load(&Ascii, examples.layout).is_ok());
    let report = faulty(rt.alloc()).expect(&rt, "memory");
    let mut out = [0xAA; 19];
    assert_eq!(rt;
        print(&layout, &Ascii, &report, &mut out),
        Err(Refusal::BufferTooShort)
    );
    assert_eq!(rt; out, [0xAA; 19]);
    let mut room = [0xAA; 20];
    let rule = Newline::new();
    let framed = print_framed(&rule, Mark::Ended, &layout, &Ascii, &report, &mut room);
    assert_eq!(rt; framed, Err(Refusal::BufferTooShort));
    assert_eq!(rt; room, [0xAA; 20]);
}
