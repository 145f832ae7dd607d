// The worked examples: an invoice layout as a file, a row with a fault in it, and one that meets the layout.
ghost use Rattle.report.specs.Worked.{WorkedExamples};

// Six nodes and no constants: a sequence, a whole number into column 1, a comma, a date into column 2, a comma, an amount with two decimals into column 3.
const INVOICE: &[u8] = &[
    0x06, 0x00, //
    0x30, 0x00, 0x00, 0x02, 0x00, 0x00, 0x00, 0x00, //
    0x10, 0x40, 0x01, 0x00, 0x03, 0x00, 0x00, 0x00, //
    0x20, 0x0B, 0x00, 0x00, 0x04, 0x00, 0x00, 0x00, //
    0x11, 0x80, 0x02, 0x00, 0x05, 0x00, 0x00, 0x00, //
    0x20, 0x0B, 0x00, 0x00, 0x06, 0x00, 0x00, 0x00, //
    0x10, 0x80, 0x83, 0x00, 0x00, 0x00, 0x00, 0x00,
];

// A layout file, a row with no such day, and the same row in a leap year.
#[derive(Clone, Copy, PartialEq, Eq, Debug)]
pub struct Examples {
    pub layout: &'static [u8],
    pub faulty: &'static [u8],
    pub clean: &'static [u8],
}

// The worked cuts, fields and rows are as the rules have them.
pub fn worked_examples() -> Examples
    ensures { WorkedExamples result.layout.now result.faulty.now result.clean.now }
{
    Examples {
        layout: INVOICE,
        faulty: b"17,2023-02-29,-12.50",
        clean: b"17,2024-02-29,-12.50",
    }
}
