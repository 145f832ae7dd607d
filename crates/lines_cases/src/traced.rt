// The limits of rows and reports, exports written again, and an export that is refused.
use fields::ascii::Ascii;
use import::import::Import;
use import::refusal::Refusal;
use layout::refusal::Refusal as LayoutRefusal;
use report::worked::worked_examples;
use rows::newline::Newline;
use std::alloc::{AllocError, Global};
use std::str;
use std::test::Fail;
use tracing::print::print_file;
use tracing::stop::Stop;
use tracing::trace::write_trace;

// A text field up to a comma.
const TEXT: &[u8] = &[0x01, 0x00, 0x11, 0x0B, 0x00, 0x00, 0x00, 0x00, 0x00, 0x00];

// A sequence of so many marks, each a comma.
fn commas(heap: Global, count: u8) -> Result<Vec<u8>, AllocError> {
    let mut file = Vec::new(heap);
    let nodes = count.wrapping_add(1);
    file.extend_from_slice(&[nodes, 0, 0x30, 0, 0, 2, 0, 0, 0, 0])?;
    for number in 2..nodes {
        let next = number.wrapping_add(1);
        file.extend_from_slice(&[0x20, 0x0B, 0, 0, next, 0, 0, 0])?;
    }
    file.extend_from_slice(&[0x20, 0x0B, 0, 0, 0, 0, 0, 0])?;
    Ok(file)
}

// The trace of a file of newline rows.
fn traced(heap: Global, layout: &[u8], file: &[u8]) -> Result<Vec<u8>, Fail> {
    let mut import = Import::empty(heap, Ascii, Newline::new())?;
    let mut out = Vec::new(heap);
    write_trace(&mut import, Newline::new(), layout, file, &mut out).map_err(|_| Fail::new(
        "stopped",
    ))?;
    Ok(out)
}

#[test]
fn a_row_has_4096_bytes(rt: HostRuntime) -> Result<(), Fail> {
    let heap = rt.alloc();
    let mut file = vec![in heap; b'x'; 4096]?;
    let trace = traced(heap, TEXT, &file)?;
    assert!(rt; trace.starts_with(b"row 1 0 4096 unended\nline 1 0 0 4096 4096\nkept-text 7878"));
    file.push(b'x')?;
    let trace = traced(heap, TEXT, &file)?;
    assert_eq!(rt;
        trace.as_slice(),
        b"row 1 0 4097 unended\nrefused 9\nfiled set-aside\ntail 4097 0\ncounts 1 0 1\n".as_slice()
    );
    Ok(())
}

// A fault, a scrap and a mark at each of 170 commas behind a byte, and a mark at each of the commas after them.
#[test]
fn a_reach_is_512_lines(rt: HostRuntime) -> Result<(), Fail> {
    let heap = rt.alloc();
    let mut file = Vec::new(heap);
    for _ in 0..170 {
        file.extend_from_slice(b"x,")?;
    }
    file.push(b',')?;
    let layout = commas(heap, 171)?;
    let trace = traced(heap, &layout, &file)?;
    let text = str::from_utf8(&trace).map_err(|_| Fail::new("no text"))?;
    let lines = text.lines().filter(|line| line.starts_with("line "));
    assert_eq!(rt; lines.count(), 512);
    file.push(b',')?;
    let layout = commas(heap, 172)?;
    let trace = traced(heap, &layout, &file)?;
    assert_eq!(rt;
        trace.as_slice(),
        b"row 1 0 342 unended\nrefused 10\nfiled set-aside\ntail 342 0\ncounts 1 0 1\n".as_slice()
    );
    Ok(())
}

#[test]
fn an_export_is_written_again(rt: HostRuntime) -> Result<(), Fail> {
    let heap = rt.alloc();
    let mut import = Import::empty(heap, Ascii, Newline::new())?;
    let layout = worked_examples().layout;
    let mut file = Vec::new(heap);
    file.extend_from_slice(b"17,2023-02-29,-12.50\n\nx")?;
    let mut out = Vec::new(heap);
    let done = print_file(heap, &mut import, Newline::new(), layout, &file, &mut out);
    assert!(rt; done.is_ok());
    assert_eq!(rt; out.as_slice(), file.as_slice());
    for _ in 0..4096 {
        file.push(b'x')?;
    }
    out.clear();
    let done = print_file(heap, &mut import, Newline::new(), layout, &file, &mut out);
    let stopped = matches!(
        done,
        Err(Stop::Unread {
            row: 3,
            refusal: Refusal::RowTooLong
        })
    );
    assert!(rt; stopped);
    assert_eq!(rt; out.as_slice(), b"17,2023-02-29,-12.50\n\n".as_slice());
    Ok(())
}

#[test]
fn an_earlier_report_stands_behind_a_refused_export(rt: HostRuntime) -> Result<(), Fail> {
    let heap = rt.alloc();
    let mut import = Import::empty(heap, Ascii, Newline::new())?;
    let mut out = Vec::new(heap);
    let done = write_trace(&mut import, Newline::new(), TEXT, b"a\nbc\n", &mut out);
    assert!(rt; done.is_ok());
    out.clear();
    let done = write_trace(&mut import, Newline::new(), &[], b"x", &mut out);
    let refused = matches!(
        done,
        Err(Stop::Refused(Refusal::Layout(LayoutRefusal::Size)))
    );
    assert!(rt; refused);
    assert!(rt; out.is_empty());
    let mut buffer = [0; 4];
    assert_eq!(rt; import.print(&mut buffer), Ok(3));
    assert_eq!(rt; buffer.as_slice(), b"bc\n\0".as_slice());
    Ok(())
}
