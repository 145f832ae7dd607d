// What became of a part of a layout in a row.
ghost use Rattle.std.specs.Prelude.{◌≡◌};
ghost use Rattle.report.specs.Outcomes.{outcome_number, role_of, is_fault};

// What a line of a report says of its node.
#[derive(Clone, Copy, PartialEq, Eq, Debug)]
pub enum Outcome {
    // It was read.
    Good = 0,
    // It could not be read.
    SyntaxFault = 1,
    // A relation between values fails.
    CheckFault = 2,
    // An option's part is not there.
    Absent = 3,
    // It was passed over, or a value for its check is missing.
    Skipped = 4,
    // A sequence with a fault in it.
    FaultBelow = 5,
    // Bytes that no part took.
    Scrap = 6,
}

impl Outcome {
    // The number of an outcome in reports. (One line, alike in other crates: a trait for it would be no plainer.)
    pub fn number(self) -> u8
        ensures { result ≡ outcome_number self }
    {
        self as u8
    }

    // Whether a line with this outcome counts as a fault.
    pub fn is_fault(self) -> bool
        ensures { result ≡ is_fault (role_of self) }
    {
        matches!(self, Outcome::SyntaxFault | Outcome::CheckFault)
    }
}
