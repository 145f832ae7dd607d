// The header rule on examples.
use crate::head::Headed;
use rows::file::set_on;
use rows::piece::{Mark, Piece};
use rows::refusal::Refusal;
use rows::rule::RowRule;
use rows::sample::Sample;
use std::test::Fail;

// A header, and the row `ab` behind it.
const FILE: [u8; 6] = [0, 0, 0, 0, 0x61, 0x62];

// That row.
const ROW: Piece = Piece::Row {
    start: 4,
    bytes: &[0x61, 0x62],
    mark: Mark::Ended,
};

// The tail that begins at a place.
fn tail(start: usize, bytes: &[u8]) -> Piece {
    Piece::Tail { start, bytes }
}

#[test]
fn sampled_tails_begin_where_frames_end(rt: HostRuntime) -> Result<(), Fail> {
    let file = FILE;
    let mut one = Sample::new(1, Headed::new())?;
    set_on(&mut one, &file)?;
    assert_eq!(rt; one.next(&file), ROW);
    assert_eq!(rt; one.next(&file), tail(6, &[]));
    let mut no_row = Sample::new(0, Headed::new())?;
    set_on(&mut no_row, &file)?;
    assert_eq!(rt; no_row.next(&file), tail(0, &file));
    Ok(())
}

#[test]
fn frames_put_the_header_first(rt: HostRuntime) -> Result<(), Fail> {
    let rule = Headed::new();
    let mut buffer = [0x61, 0x62, 1, 2, 3, 4, 5, 6];
    assert_eq!(rt; rule.frame_in(&mut buffer, 2, Mark::Ended)?, 6);
    assert_eq!(rt; buffer, [0, 0, 0, 0, 0x61, 0x62, 5, 6]);
    let mut short = [0x61, 0x62, 1, 2, 3];
    let refusal = rule.frame_in(&mut short, 2, Mark::Ended).err();
    assert_eq!(rt; refusal.map(Refusal::number), Some(15));
    assert_eq!(rt; short, [0x61, 0x62, 1, 2, 3]);
    Ok(())
}

#[test]
fn set_on_a_file_all_is_to_come(rt: HostRuntime) -> Result<(), Fail> {
    let file = FILE;
    let mut rule = Headed::new();
    set_on(&mut rule, &file)?;
    assert_eq!(rt; rule.next(&file), ROW);
    let bare = [0, 0, 0, 0x61];
    set_on(&mut rule, &bare)?;
    assert_eq!(rt; rule.next(&bare), tail(0, &bare));
    Ok(())
}
