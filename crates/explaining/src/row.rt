// A row as it stands in its file.
ghost use Rattle.std.specs.Prelude.{◌≡◌};
ghost use Rattle.cli.specs.declared.texts.ListingLine.TheVariants.{Row as listed};

use cli::texts::ListingLine;
use rows::piece::Mark;

#[derive(Clone, Copy, PartialEq, Eq, Debug)]
pub struct Row {
    // from 1
    pub number: usize,
    pub start: usize,
    pub length: usize,
    pub mark: Mark,
}

impl Row {
    // The row as it is listed.
    pub fn listed(self) -> ListingLine
        ensures { result ≡ listed self.number self.start self.length self.mark }
    {
        ListingLine::Row {
            number: self.number,
            start: self.start,
            length: self.length,
            mark: self.mark,
        }
    }
}
