// The library for C: one export for each call, which answers the number of its status. `include/neskvaru.h` is its header.
#![tactic(auto)]

ghost use Rattle.std.specs.Prelude.{◌≡◌, ◌≢◌, length};
ghost use Rattle.rows.specs.Frames.{laid};
ghost use Rattle.calls.specs.Lefts.{traced, printed};
ghost use Rattle.calls.specs.Named.{Numbered, LayoutNamed, LeavesNamed, MatchesNamed};

use calls::check::check_layout_words;
use calls::matching::{Answer, RefusedAt, match_words};
use calls::print::print_words;
use calls::trace::trace_words;
use std::alloc::Global;

// Whether a layout file is accepted under the family that some words name.
#[unsafe(no_mangle)]
pub extern "C" fn neskvaru_check_layout_bytes(heap: Global, family: &[u8], layout: &[u8]) -> u8
    ensures { Numbered result (LayoutNamed layout.now) }
{
    check_layout_words(heap, family, layout).number()
}

// Writes the trace of an export at a buffer's beginning, and tells how many bytes it has.
#[tactic(auto, using(calls::proofs::Numbers::unless_done))]
#[unsafe(no_mangle)]
pub extern "C" fn neskvaru_trace_bytes(
    heap: Global,
    rule: &[u8],
    family: &[u8],
    layout: &[u8],
    file: &[u8],
    out: &mut [u8],
    count: &mut usize,
) -> u8
    ensures named { Numbered result (λ s. LeavesNamed (λ rule means. traced rule means layout.now file.now) (s, out.new, count.new) out.old count.old) }
    ensures buffer_stays { result ≢ 0 → out.new ≡ out.old }
    ensures length_stays { result ≢ 0 → count.new ≡ count.old }
{
    trace_words(heap, rule, family, layout, file, out, count).number()
}

// Writes an export again at a buffer's beginning, from the reports of its rows, and tells how many bytes it has.
#[tactic(auto, using(calls::proofs::Numbers::unless_done, calls::proofs::Numbers::file_written))]
#[unsafe(no_mangle)]
pub extern "C" fn neskvaru_print_bytes(
    heap: Global,
    rule: &[u8],
    family: &[u8],
    layout: &[u8],
    file: &[u8],
    out: &mut [u8],
    count: &mut usize,
) -> u8
    ensures named { Numbered result (λ s. LeavesNamed (λ rule means. printed rule means layout.now file.now) (s, out.new, count.new) out.old count.old) }
    ensures written { result ≡ 0 → (out.new ≡ laid file.now out.old) × (count.new ≡ length file.now) }
    ensures buffer_stays { result ≢ 0 → out.new ≡ out.old }
    ensures length_stays { result ≢ 0 → count.new ≡ count.old }
{
    print_words(heap, rule, family, layout, file, out, count).number()
}

// Matches a resent export against the first; where it is refused for a side's export, tells where.
#[tactic(auto, using(calls::proofs::Numbers::unless_done))]
#[unsafe(no_mangle)]
pub extern "C" fn neskvaru_match_bytes(
    heap: Global,
    rule: &[u8],
    family: &[u8],
    layout: &[u8],
    first: &[u8],
    resent: &[u8],
    answer: &mut Answer,
    refused: &mut RefusedAt,
) -> u8
    ensures named { Numbered result (λ s. MatchesNamed layout.now first.now resent.now (s, answer.new, refused.new) answer.old refused.old) }
    ensures answer_stays { result ≢ 0 → answer.new ≡ answer.old }
{
    match_words(heap, rule, family, layout, first, resent, answer, refused).number()
}
