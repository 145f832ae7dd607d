// A report that is kept: its lines, its kept text, how many lines are faults, and what printing has to know of its row.
ghost use Rattle.std.specs.Prelude.{◌≡◌, ◌≤◌, vec_len, vec_capacity};
ghost use Rattle.report.specs.Lines.{faults as faults_in};

use report::line::Line;

pub mod made;

// A reader may have two lines more than the most for a moment, so there is room for them.
#[derive(Debug, Drop)]
pub struct Report {
    pub lines: Vec<Line>,
    pub text: Vec<u8>,
    pub faults: usize,
    // the lengths of the row and of its frame, measured while the row is at hand, so that printing can refuse before it writes
    pub row_length: usize,
    pub frame_length: usize,
    ghost room: { (514 ≤ vec_capacity lines) × (4096 ≤ vec_capacity text) },
    ghost few: { (vec_len lines ≤ 512) × (vec_len text ≤ 4096) × (row_length ≤ 4096) },
    ghost counted: { faults ≡ faults_in lines.items },
}
