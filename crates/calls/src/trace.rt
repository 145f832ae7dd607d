// An export is traced into the caller's buffer.
ghost use Rattle.std.specs.Prelude.{◌≡◌, []};
ghost use Rattle.calls.specs.Lefts.{Leaves, traced, Makes, Stays};
ghost use Rattle.calls.specs.Named.{LeavesNamed};

use crate::buffer::put;
use crate::status::Status;
use crate::words::{Named, named_by};
use fields::family::Family;
use import::import::Import;
use rows::rule::RowRule;
use std::alloc::Global;
use tracing::trace::write_trace;

// The trace of an export, in memory of the library's; no byte of the caller's is touched yet.
fn make_trace<F: Family, R: RowRule>(
    heap: Global,
    named: Named<F, R>,
    layout: &[u8],
    file: &[u8],
    text: &mut Vec<u8>,
) -> Status
where
    F: Drop,
    R: Drop,
    requires { text.old.items ≡ [] }
    ensures { Makes (traced (R.means named.rule) (F.means named.family) layout.now file.now) result text.new.items }
{
    let Named {
        spare,
        rule,
        family,
    } = named;
    let Ok(mut import) = Import::empty(heap, family, spare) else {
        return Status::NoMemory;
    };
    match write_trace(&mut import, rule, layout, file, text) {
        Ok(()) => Status::Done,
        Err(stop) => Status::from(stop),
    }
}

// Writes the trace of an export at a buffer's beginning, and tells its length. It is made in memory of the library's, and copied once it is known to have room.
pub fn trace_into<F: Family, R: RowRule>(
    heap: Global,
    named: Named<F, R>,
    layout: &[u8],
    file: &[u8],
    out: &mut [u8],
    length: &mut usize,
) -> Status
where
    F: Drop,
    R: Drop,
    ensures { Leaves (traced (R.means named.rule) (F.means named.family) layout.now file.now) (result, out.new, length.new) out.old length.old }
{
    let mut text = Vec::new(heap);
    match make_trace(heap, named, layout, file, &mut text) {
        Status::Done => put(&text, out, length),
        Status::Refused(why) => Status::Refused(why),
        Status::NoRule => Status::NoRule,
        Status::NoFamily => Status::NoFamily,
        Status::NoMemory => Status::NoMemory,
    }
}

// The same under the rule and the family that some words stand for.
pub fn trace_words(
    heap: Global,
    rule: &[u8],
    family: &[u8],
    layout: &[u8],
    file: &[u8],
    out: &mut [u8],
    length: &mut usize,
) -> Status
    ensures named { LeavesNamed (λ rule means. traced rule means layout.now file.now) (result, out.new, length.new) out.old length.old }
    ensures buffer_stays { Stays out.old out.new result }
    ensures length_stays { Stays length.old length.new result }
{
    match named_by(rule, family) {
        Ok(named) => trace_into(heap, named, layout, file, out, length),
        Err(fault) => Status::from(fault),
    }
}
