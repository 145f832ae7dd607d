// What holds of every report, stated for every family, every table of nodes and constants, and every row; and again for every layout file that loading accepts.
ghost use Rattle.report.specs.Promises.{PrintsBack, LinesInPlace, CleanWhenMet, ToldApart, UnderAcceptedFiles, GivenUpUnheard};

use fields::family::Family;

// Printing a report gives the bytes of its row, clean or faulty.
pub fn prints_back<F: Family>(family: &F)
    ensures { PrintsBack (F.means family.now) }
{}

// Each line starts where the lines above it, printed, end.
pub fn lines_in_place<F: Family>(family: &F)
    ensures { LinesInPlace (F.means family.now) }
{}

// A report counts no fault exactly when its row meets the layout.
#[tactic(auto, using(crate::proofs::CleanRows::clean_row))]
pub fn clean_when_met<F: Family>(family: &F)
    ensures { CleanWhenMet (F.means family.now) }
{}

// Two reports are equal exactly when their rows hold the same bytes.
pub fn told_apart<F: Family>(family: &F)
    ensures { ToldApart (F.means family.now) }
{}

// That a report prints its row, is clean when the row meets the layout, and tells rows apart, under every layout file that loading accepts.
pub fn under_accepted_files<F: Family>(family: &F)
    ensures { UnderAcceptedFiles (F.means family.now) }
{}

// A value of a given-up branch never reaches a check.
#[tactic(auto, using(crate::proofs::CheckLaws::unheard))]
pub fn given_up_unheard<F: Family>(family: &F)
    ensures { GivenUpUnheard (F.means family.now) }
{}
