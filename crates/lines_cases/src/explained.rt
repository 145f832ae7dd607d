// What is told of an export with faults, and of exports that were matched.
use cli::families::{AnyFamily, family_of};
use explaining::explain::write_explanation;
use explaining::matched::MatchedLine;
use import::answer::{Difference, Matched};
use import::import::Import;
use report::worked::worked_examples;
use rows::newline::Newline;
use std::alloc::Global;
use std::test::Fail;

// The explanation of a file of newline rows.
fn explained(heap: Global, layout: &[u8], file: &[u8]) -> Result<Vec<u8>, Fail> {
    let words = family_of("ascii").ok_or_else(|| Fail::new("no family"))?;
    let mut import = Import::empty(heap, AnyFamily::from(words), Newline::new())?;
    let mut out = Vec::new(heap);
    write_explanation(&mut import, Newline::new(), layout, words, file, &mut out).map_err(
        |_| Fail::new("stopped"),
    )?;
    Ok(out)
}

#[test]
fn faults_and_scrap_are_told(rt: HostRuntime) -> Result<(), Fail> {
    let text = explained(
        rt.alloc(),
        worked_examples().layout,
        b"17,2024-02-29,-12.50\n18,2023-02-29,7.00\n19;2024-03-01,3.10\n20,2024-03-05,310.00 late",
    )?;
    assert_eq!(rt;
        text.as_slice(),
        b"row 2: start 21, length 18, ended: 1 fault, set aside
  date (node 4), at 3: too large, or no such date (cause 3)
  scrap, at 3, 10 bytes: '2023-02-29'
row 3: start 40, length 18, ended: 2 faults, set aside
  mark ',' (node 3), at 2: another byte stands here
  scrap, at 2, 11 bytes: ';2024-03-01'
  date (node 4), at 14: the bytes end too soon (cause 1)
  scrap, at 14, 4 bytes: '3.10'
  2 parts skipped
row 4: start 59, length 25, unended: 1 fault, set aside
  the row, at 20: the layout ends here, and bytes are left
  scrap, at 20, 5 bytes: ' late'
4 rows opened: 1 kept, 3 set aside
tail: start 84, length 0
notice: the closing row, row 4, has no newline at its end; it is a row like the others and is counted
"
            .as_slice()
    );
    Ok(())
}

// A choice of two marks, behind it a check that a column is less than 5.
const CHOICE: &[u8] = &[
    0x06, 0x01, //
    0x30, 0, 0, 2, 0, 0, 0, 0, //
    0x10, 0x40, 0x01, 0, 3, 0, 0, 0, //
    0x70, 0xD0, 0x01, 0, 4, 0, 0, 0, //
    0x40, 0, 0, 5, 0, 0, 0, 0, //
    0x20, 0x0B, 0, 0, 6, 0, 0, 0, //
    0x20, 0x0E, 0xC0, 0, 0, 0, 0, 0, //
    0, 0, 0, 0, 0, 0, 0, 5,
];

#[test]
fn choices_checks_and_odd_bytes_are_told(rt: HostRuntime) -> Result<(), Fail> {
    let heap = rt.alloc();
    let mut file = Vec::new(heap);
    file.extend_from_slice(b"7\\\xFF")?;
    for _ in 0..63 {
        file.push(b'x')?;
    }
    let text = explained(heap, CHOICE, &file)?;
    assert!(rt;
        text.starts_with(
            b"row 1: start 0, length 66, unended: 2 faults, set aside
  check, column 1 is less than constant 0, which is 5 (node 3), at 1: this does not hold
  choice (node 4), at 1: no branch fits
  scrap, at 1, 65 bytes: '\\x5C\\xFFxxx"
        )
    );
    assert!(rt;
        text.ends_with(
            b"xxx' and 1 byte more
1 row opened: 0 kept, 1 set aside
tail: start 66, length 0
notice: the closing row, row 1, has no newline at its end; it is a row like the others and is counted
"
        )
    );
    Ok(())
}

#[test]
fn a_row_that_is_too_long_is_told(rt: HostRuntime) -> Result<(), Fail> {
    let heap = rt.alloc();
    let mut file = vec![in heap; b'x'; 4162]?;
    file.push(b'\n')?;
    let text = explained(heap, CHOICE, &file)?;
    assert_eq!(rt;
        text.as_slice(),
        b"row 1: start 0, length 4162, ended: not read, number 9: a row has more than 4096 bytes, set aside
1 row opened: 0 kept, 1 set aside
tail: start 4163, length 0
"
            .as_slice()
    );
    Ok(())
}

#[test]
fn a_match_has_its_line(rt: HostRuntime) -> Result<(), Fail> {
    let mut text = String::new(rt.alloc());
    let how = [
        Difference::Report,
        Difference::Mark,
        Difference::MissingInFirst,
        Difference::MissingInResent,
        Difference::Tail,
    ];
    let same = MatchedLine(Matched::Same);
    writeln!(text, "{same}")?;
    for how in &how {
        let line = MatchedLine(Matched::Differs { row: 3, how: *how });
        writeln!(text, "{line}")?;
    }
    assert_eq!(rt;
        text.as_str(),
        "the same: rows, marks and tail are those of the first export
row 3: another report; the row has other bytes in the resent export
row 3: another mark; in one export the row has a newline at its end, in the other it has none
row 3: missing in the first export
row 3: missing in the resent export
another tail; the bytes behind all rows differ
"
    );
    Ok(())
}
