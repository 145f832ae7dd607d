// The newline rule: byte 0A ends a row.
ghost use Rattle.memchr.specs.Find.{IsFirst, IsFirstByte, Passes, is_byte};
ghost use Rattle.std.specs.Prelude.{◌≡◌, ◌≤◌, ℕ, List, length};
ghost use Rattle.rows.specs.Finds.{Finds};
ghost use Rattle.rows.specs.Steps.{SetOn, Asked};
ghost use Rattle.rows.specs.Told.{told};
ghost use Rattle.rows.specs.Newlines.{newline_from, newline_meaning, lacks};
ghost use Rattle.rows.specs.Words.{NewlineRows};
ghost use Rattle.rows.specs.NewlineCuts.{newline_lawful};

use crate::frames::row_and;
use crate::piece::{Found, Mark, Piece};
use crate::refusal::Refusal;
use crate::rule::RowRule;
use memchr::memchr_iter;

// The byte that ends a row.
pub const NEWLINE: u8 = 0x0A;

// `at` is where the first row to come begins.
#[derive(Clone, Copy)]
pub struct Newline {
    at: usize,
}

impl Newline {
    // The rule before its first row. Of every file it cuts the rows that the clause `words` tells.
    pub fn new() -> Newline
        ensures value { result.at ≡ 0 }
        ensures words { (file : List ℕ) → NewlineRows file }
    {
        Newline { at: 0 }
    }
}

// Whether no byte is 0A.
fn lacks_newline(row: &[u8]) -> bool
    ensures { result ≡ lacks row.now }
{
    !row.contains(&NEWLINE)
}

// Where the first 0A stands among the first eight bytes. (This and what cuts a row around it are put where they are called: for a row of few bytes the calls would take longer than the look.)
#[inline(always)]
fn near_newline(rest: &[u8]) -> Option<usize>
    requires { 8 ≤ length rest.now }
    ensures { IsFirst (Passes (is_byte 10) rest.now) 0 8 result }
{
    for i in 0..8 {
        if rest[i] == NEWLINE {
            return Some(i);
        }
    }
    None
}

// Where the first 0A stands, 32 bytes at once and then more. (A call, so that what is put where rows are cut stays short.)
#[inline(never)]
fn far_newline(rest: &[u8]) -> Option<usize>
    ensures { IsFirstByte (is_byte 10) rest.now result }
{
    memchr_iter(NEWLINE, rest).next()
}

// How many bytes stand before the first 0A, if there is one. (The first bytes are looked at one by one: a row of few bytes would wait for the search of many.)
#[inline(always)]
fn line_length(rest: &[u8]) -> Option<usize>
    ensures { IsFirstByte (is_byte 10) rest.now result }
{
    if rest.len() >= 8 {
        if let Some(length) = near_newline(rest) {
            return Some(length);
        }
    }
    far_newline(rest)
}

// The row at a place, or none where the file ends before it.
#[inline(always)]
fn row_at(file: &[u8], start: usize) -> Option<Found>
    ensures { Finds newline_from start file.now result }
{
    if start >= file.len() {
        return None;
    }
    let rest = &file[start..];
    match line_length(rest) {
        Some(length) => Some(Found {
            start,
            bytes: &rest[..length],
            mark: Mark::Ended,
            next: start + length + 1,
        }),
        None => Some(Found {
            start,
            bytes: rest,
            mark: Mark::Unended,
            next: file.len(),
        }),
    }
}

impl RowRule for Newline {
    ghost means = { λ _. newline_meaning };

    ghost ahead = { λ s. newline_from s.at };

    ghost lawful = { λ _. newline_lawful };

    fn set(&mut self, _file: &[u8])
        ensures { SetOn _file.now newline_meaning newline_meaning (newline_from self.new.at) }
    {
        self.at = 0;
    }

    #[inline(always)]
    fn next<'f>(&mut self, file: &'f [u8]) -> Piece<'f>
        ensures { Asked file.now (told result) newline_meaning newline_meaning (newline_from self.old.at) (newline_from self.new.at) }
    {
        let found = row_at(file, self.at);
        Piece::found_at(file, &mut self.at, found)
    }

    fn carries(&self, row: &[u8], mark: Mark) -> bool {
        match mark {
            Mark::Ended => lacks_newline(row),
            Mark::Unended => lacks_newline(row) && !row.is_empty(),
        }
    }

    fn frame_length(&self, row: &[u8], mark: Mark) -> usize {
        match mark {
            Mark::Ended => row.len().saturating_add(1),
            Mark::Unended => row.len(),
        }
    }

    fn frame_in(&self, buffer: &mut [u8], length: usize, mark: Mark) -> Result<usize, Refusal> {
        match mark {
            Mark::Ended => row_and(buffer, length, &[NEWLINE]),
            Mark::Unended => row_and(buffer, length, &[]),
        }
    }
}
