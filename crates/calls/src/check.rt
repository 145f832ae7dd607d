// A layout file is checked.
ghost use Rattle.calls.specs.Lefts.{LayoutTold};
ghost use Rattle.calls.specs.Named.{LayoutNamed};

use crate::status::Status;
use crate::words::family_in;
use fields::family::Family;
use import::refusal::Refusal;
use layout::table::Layout;
use std::alloc::Global;

// Whether a layout file is accepted under a family.
pub fn check_layout<F: Family>(heap: Global, family: &F, layout: &[u8]) -> Status
    ensures { LayoutTold (F.means family.now) layout.now result }
{
    let Ok(mut table) = Layout::new(heap) else {
        return Status::NoMemory;
    };
    match table.load(family, layout) {
        Ok(()) => Status::Done,
        Err(why) => Status::Refused(Refusal::Layout(why)),
    }
}

// The same under the family that some words stand for.
pub fn check_layout_words(heap: Global, family: &[u8], layout: &[u8]) -> Status
    ensures { LayoutNamed layout.now result }
{
    match family_in(family) {
        Some(family) => check_layout(heap, &family, layout),
        None => Status::NoFamily,
    }
}
