// The tree of a layout with every shape, in words.
use cli::families::{AnyFamily, family_of};
use layout::table::Layout;
use outlines::tree::tree_lines;
use std::test::Fail;

// Nodes need not be numbered in the order of reading: the option's part is node 10.
const FILE: [u8; 90] = [
    10, 1, //
    0x30, 0, 0, 2, 0, 0, 0, 0, // 1 sequence, child 2
    0x10, 0x40, 0x01, 0, 3, 0, 0, 0, // 2 field, kind 1, column 1, next 3
    0x50, 0, 0, 10, 4, 0, 0, 0, // 3 option, child 10, next 4
    0x40, 0, 0, 5, 8, 0, 0, 0, // 4 choice, child 5, next 8
    0x20, 0x0B, 0, 0, 6, 0, 0, 0, // 5 mark 2C, next 6
    0x30, 0, 0, 7, 0, 0, 0, 0, // 6 sequence, child 7
    0x20, 0x02, 0x80, 0, 0, 0, 0, 0, // 7 mark 0A
    0x70, 0xD0, 0x01, 0, 9, 0, 0, 0, // 8 check, less, column 1, constant 0, next 9
    0x71, 0x00, 0x42, 0, 0, 0, 0, 0, // 9 check, at most, column 2, column 1
    0x18, 0xC0, 0x80, 0, 0, 0, 0, 0, // 10 field, kind 35, parameter 2
    0xFF, 0xFF, 0xFF, 0xFF, 0xFF, 0xFF, 0xFF, 0xFB, // constant 0, -5
];

#[test]
fn every_shape_has_its_line(rt: HostRuntime) -> Result<(), Fail> {
    let heap = rt.alloc();
    let family = family_of("pair:ascii:binary").ok_or_else(|| Fail::new("no family"))?;
    let mut layout = Layout::new(heap)?;
    let loaded = layout.load(&AnyFamily::from(family), &FILE);
    assert!(rt; loaded.is_ok());
    let mut text = String::new(heap);
    for line in tree_lines(heap, family, &layout)? {
        writeln!(text, "{line}")?;
    }
    assert_eq!(rt;
        text.as_str(),
        "node 1: sequence
  node 2: whole number, kind 1, parameter 0, column 1
  node 3: option
    node 10: bytes, kind 35, parameter 2, no column
  node 4: choice
    node 5: mark, byte 2C
    node 6: sequence
      node 7: mark, byte 0A
  node 8: check, column 1 is less than constant 0, which is -5
  node 9: check, column 2 is at most column 1
"
    );
    Ok(())
}
