// Slips: what a row is handed out under, and given back for when it is filed.
ghost use Rattle.std.specs.Prelude.{◌≡◌};

// Plain numbers: the import's, and the row's, which counts from 1. Nobody makes a slip from numbers but the import that hands the row out.
#[derive(PartialEq, Eq, Debug)]
pub struct Slip {
    pub(crate) import: u32,
    pub(crate) row: u32,
}

// A slip may be let go only when it is spent, which no caller can show: row 0 stands for that, and only filing sets it.
impl Drop for Slip {
    fn drop(self)
        requires spent { self.row ≡ 0 }
    {
        let Slip { import: _, row: _ } = self;
    }
}

impl Slip {
    // Filed.
    pub(crate) fn spend(mut self) {
        self.row = 0;
    }
}
