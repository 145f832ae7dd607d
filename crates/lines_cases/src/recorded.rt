// Each record of a trace as it is written.
use records::record::{Filing, Record};
use report::line::Line;
use report::outcome::Outcome;
use rows::piece::Mark;
use std::alloc::Global;
use std::test::Fail;

// The records in words, one after another.
fn written(heap: Global, records: &[Record]) -> Result<String, Fail> {
    let mut text = String::new(heap);
    for record in records {
        writeln!(text, "{record}")?;
    }
    Ok(text)
}

#[test]
fn a_row_and_its_report_have_their_words(rt: HostRuntime) -> Result<(), Fail> {
    let records = [
        Record::Row {
            number: 2,
            start: 21,
            length: 20,
            mark: Mark::Unended,
        },
        Record::Line(Line {
            node: 6,
            outcome: Outcome::FaultBelow,
            start: 14,
            length: 6,
            number: -1250,
        }),
        Record::KeptText(b""),
        Record::KeptText(b"\x00a\xFF"),
        Record::Faults(3),
    ];
    assert_eq!(rt;
        written(rt.alloc(), &records)?.as_str(),
        "row 2 21 20 unended
line 6 5 14 6 -1250
kept-text
kept-text 0061ff
faults 3
"
    );
    Ok(())
}

#[test]
fn what_becomes_of_rows_has_its_words(rt: HostRuntime) -> Result<(), Fail> {
    let records = [
        Record::Refused(10),
        Record::Filed(Filing::Kept),
        Record::Filed(Filing::SetAside),
        Record::Tail {
            start: 41,
            length: 0,
        },
        Record::Counts {
            opened: 2,
            kept: 1,
            set_aside: 1,
        },
    ];
    assert_eq!(rt;
        written(rt.alloc(), &records)?.as_str(),
        "refused 10
filed kept
filed set-aside
tail 41 0
counts 2 1 1
"
    );
    Ok(())
}
