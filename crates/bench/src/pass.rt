// One pass over an export.
ghost use Rattle.std.specs.Prelude.{◌≡◌, vec_len};

use fields::ascii::Ascii;
use import::answer::Matched;
use import::import::Import;
use import::import::matching::Matcher;
use import::stage::How;
use layout::table::Layout;
use passes::pass::pass_next;
use printer::print_framed;
use reader::reader::Reader;
use rows::file::LONGEST;
use rows::newline::Newline;
use rows::piece::{Mark, Piece};
use rows::rule::RowRule;
use std::alloc::{AllocError, Global};
use store::memory::Report;
use store::memory::made::LONGEST_ROW;

// What is done with each row.
#[derive(Clone, Copy)]
pub enum Work {
    Cut,
    // by the reader alone
    Read,
    // by the reader and the printer alone
    Print,
    // an import opens it, reads it, and keeps it or sets it aside
    File,
    // it is matched with its copy
    Match,
}

// What came of a pass.
#[derive(Clone, Copy)]
pub struct Counts {
    pub rows: usize,
    pub refused: usize,
    // rows whose report counts a fault
    pub faulty: usize,
    pub printed: usize,
    // matches that found a difference
    pub differing: usize,
}

impl Counts {
    pub const NONE: Counts = Counts {
        rows: 0,
        refused: 0,
        faulty: 0,
        printed: 0,
        differing: 0,
    };
}

// The files of a pass: the layout, the export, and a copy of the export.
#[derive(Clone, Copy)]
pub struct Files<'a> {
    pub layout: &'a [u8],
    pub export: &'a [u8],
    pub copy: &'a [u8],
}

// All memory of a pass.
#[derive(Drop)]
pub struct Memory {
    layout: Layout,
    reader: Reader,
    report: Report,
    out: Vec<u8>,
    import: Import<Ascii, Newline>,
    matcher: Matcher<Ascii, Newline>,
}

impl Memory {
    pub fn new(heap: Global) -> Result<Memory, AllocError> {
        let layout = Layout::new(heap)?;
        let reader = Reader::new(heap)?;
        let report = Report::new(heap)?;
        let out = vec![in heap; 0; LONGEST_ROW + 1]?;
        let import = Import::empty(heap, Ascii, Newline::new())?;
        let matcher = Matcher::new(heap, Ascii, Newline::new(), Ascii, Newline::new())?;
        Ok(Memory {
            layout,
            reader,
            report,
            out,
            import,
            matcher,
        })
    }

    // Loads the layout, and says whether it could be.
    pub fn load(&mut self, bytes: &[u8]) -> bool {
        self.layout.load(&Ascii, bytes).is_ok()
    }

    // Reads a row, and prints it if that is the work.
    fn read(&mut self, work: Work, rule: &Newline, row: &[u8], mark: Mark, counts: &mut Counts) {
        let read = self
            .reader
            .read_framed(rule, &self.layout, &Ascii, row, mark, &mut self.report);
        if read.is_err() {
            counts.refused = counts.refused.saturating_add(1);
            return;
        }
        if self.report.faults > 0 {
            counts.faulty = counts.faulty.saturating_add(1);
        }
        if let Work::Print = work {
            let out = self.out.as_mut_slice();
            if let Ok(length) = print_framed(rule, mark, &self.layout, &Ascii, &self.report, out) {
                counts.printed = counts.printed.saturating_add(length);
            }
        }
    }

    // Cuts a file into rows, and reads and prints them if that is the work.
    fn go_over(&mut self, work: Work, file: &[u8]) -> Counts {
        let mut rule = Newline::new();
        rule.set(file);
        let mut counts = Counts::NONE;
        // a file has no more rows than it may have bytes
        for _ in 0..LONGEST {
            let Piece::Row { bytes, mark, .. } = rule.next(file) else {
                break;
            };
            counts.rows = counts.rows.saturating_add(1);
            match work {
                Work::Read | Work::Print => self.read(work, &rule, bytes, mark, &mut counts),
                Work::Cut | Work::File | Work::Match => {}
            }
        }
        counts
    }

    // An import takes a file and files its rows.
    fn file_rows(&mut self, layout: &[u8], file: &[u8]) -> Counts {
        let mut counts = Counts::NONE;
        if self.import.new(1, layout, Newline::new(), file).is_err() {
            counts.refused = 1;
            return counts;
        }
        for _ in 0..LONGEST {
            let Ok(Some(row)) = pass_next(&mut self.import, file) else {
                break;
            };
            counts.rows = counts.rows.saturating_add(1);
            match (row.read, row.filed) {
                (Err(_), _) => counts.refused = counts.refused.saturating_add(1),
                (Ok(()), How::SetAside) => counts.faulty = counts.faulty.saturating_add(1),
                (Ok(()), How::Kept) => {}
            }
        }
        counts
    }

    // The export is matched with its copy.
    fn match_copy(&mut self, files: Files<'_>) -> Counts {
        let Files {
            layout,
            export,
            copy,
        } = files;
        let mut counts = Counts::NONE;
        let matched = self
            .matcher
            .match_resent(layout, Newline::new(), export, Newline::new(), copy);
        match matched {
            Ok(Matched::Same) => {}
            Ok(Matched::Differs { .. }) => counts.differing = 1,
            Err(_) => counts.refused = 1,
        }
        counts
    }

    // Does the work with the rows of an export. (A function of its own in the program that is built: what it costs is found under its name.)
    #[inline(never)]
    pub fn pass(&mut self, work: Work, files: Files<'_>) -> Counts {
        match work {
            Work::Cut | Work::Read | Work::Print => self.go_over(work, files.export),
            Work::File => self.file_rows(files.layout, files.export),
            Work::Match => self.match_copy(files),
        }
    }
}
