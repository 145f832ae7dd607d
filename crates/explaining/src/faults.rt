// What is said of a part that a row is at fault in.
ghost use Rattle.std.specs.Prelude.{◌≡◌, Some};
ghost use Rattle.explaining.specs.Faults.{part_name, cause_words, mark_words, fault_words};

use crate::cause::cause_of;
use crate::shown::ShownByte;
use cli::families::FamilyWords;
use fields::cause::Cause;
use layout::node::Shape;
use outlines::line::ShapeWords;
use std::fmt;

// What a part is called: a field as the family calls its kind, a mark with its byte.
#[derive(Clone, Copy)]
pub(crate) struct PartName<'t>(pub ShapeWords<'t>);

impl fmt::Display for PartName<'_> {
    ghost output = { λ name. Some (part_name name.0.family name.0.constants.now name.0.shape) };

    fn fmt<W: fmt::Write>(&self, f: &mut fmt::Formatter<W>) -> fmt::Result {
        let words = self.0;
        match words.shape {
            Shape::Field { kind, column: _ } => f.write_str(words.family.kind_name(kind.code)),
            Shape::Mark { byte } => {
                let byte = ShownByte(byte);
                write!(f, "mark '{byte}'")
            }
            Shape::Sequence { child: _ } => write!(f, "{words}"),
            Shape::Choice { child: _ } => write!(f, "{words}"),
            Shape::Optional { child: _ } => write!(f, "{words}"),
            Shape::Check {
                relation: _,
                left: _,
                right: _,
            } => write!(f, "{words}"),
        }
    }
}

// Why a mark is at fault.
fn mark_words(cause: Cause) -> &'static str
    ensures { result.now ≡ mark_words cause }
{
    match cause {
        Cause::Short => "the row ends here",
        Cause::Form | Cause::Range | Cause::SecondSpelling => "another byte stands here",
    }
}

// A field's cause, with its number.
#[derive(Clone, Copy)]
struct CauseWords(Cause);

impl fmt::Display for CauseWords {
    ghost output = { λ words. Some (cause_words words.0) };

    fn fmt<W: fmt::Write>(&self, f: &mut fmt::Formatter<W>) -> fmt::Result {
        let cause = self.0;
        let number = cause.number();
        write!(f, "{cause} (cause {number})")
    }
}

// Why a part is at fault, by its shape and the number of its line.
#[derive(Clone, Copy)]
pub(crate) struct FaultWords {
    pub shape: Shape,
    pub number: i64,
}

impl fmt::Display for FaultWords {
    ghost output = { λ words. Some (fault_words words.shape words.number) };

    fn fmt<W: fmt::Write>(&self, f: &mut fmt::Formatter<W>) -> fmt::Result {
        match self.shape {
            Shape::Field { kind: _, column: _ } => {
                let words = CauseWords(cause_of(self.number));
                write!(f, "{words}")
            }
            Shape::Mark { byte: _ } => f.write_str(mark_words(cause_of(self.number))),
            // sequences and options are never at fault themselves
            Shape::Sequence { child: _ } => f.write_str("not read"),
            Shape::Choice { child: _ } => f.write_str("no branch fits"),
            Shape::Optional { child: _ } => f.write_str("not read"),
            Shape::Check {
                relation: _,
                left: _,
                right: _,
            } => f.write_str("this does not hold"),
        }
    }
}
