// Layout files, each with the refusal that it meets, as tables that are run.
#![tactic(auto)]

use fields::family::Family;
use layout::table::Layout;
use std::alloc::{AllocError, Global};

// A table of nodes with some constants, and the number of the refusal that it meets, or none, as the rules give it.
// Each node is its eight bytes in one number: shape, kind, parameter and column in three of them, then child, next, and three that are zero.
#[derive(Clone, Copy)]
pub struct Case {
    pub nodes: &'static [u64],
    pub constants: &'static [i64],
    pub wanted: Option<u8>,
}

pub const fn sound(nodes: &'static [u64], constants: &'static [i64]) -> Case {
    Case {
        nodes,
        constants,
        wanted: None,
    }
}

pub const fn refused(number: u8, nodes: &'static [u64], constants: &'static [i64]) -> Case {
    Case {
        nodes,
        constants,
        wanted: Some(number),
    }
}

// The bytes of a layout file. (It tells the counts modulo 256.)
pub fn file_of(heap: Global, nodes: &[u64], constants: &[i64]) -> Result<Vec<u8>, AllocError> {
    let mut bytes = Vec::new(heap);
    bytes.push((nodes.len() % 256) as u8)?;
    bytes.push((constants.len() % 256) as u8)?;
    for node in nodes {
        bytes.extend_from_slice(&node.to_be_bytes())?;
    }
    for constant in constants {
        bytes.extend_from_slice(&constant.to_be_bytes())?;
    }
    Ok(bytes)
}

// The number of the refusal that a file meets, or none.
pub fn answer<F: Family>(layout: &mut Layout, family: &F, file: &[u8]) -> Option<u8> {
    layout.load(family, file).err().map(|e| e.number())
}

// A node of a table, and what stands in its place to give the table a fault of this number.
#[derive(Clone, Copy)]
pub struct Fault {
    pub number: u8,
    pub node: usize,
    pub record: u64,
}

// Puts the fault into the table.
pub fn spoil(nodes: &mut [u64], fault: Fault) {
    if let Some(record) = nodes.get_mut(fault.node.saturating_sub(1)) {
        *record = fault.record;
    }
}

#[cfg(test)]
mod tests {
    use super::*;
    use fields::ascii::Ascii;
    use fields::binary::Binary;
    use fields::pair::Pair;
    use layout::node::Entry;
    use std::test::Fail;

    // A sequence of a whole number, a comma, a date, a comma and an amount.
    const INVOICE: [u64; 6] = [
        0x300000_02_00_000000,
        0x104001_00_03_000000,
        0x200B00_00_04_000000,
        0x118002_00_05_000000,
        0x200B00_00_06_000000,
        0x108083_00_00_000000,
    ];

    // A table that meets no refusal, with a node for each fault; nodes 8 to 21 lie each in the one before, and 22 and 23 at depth 16.
    const SOUND: [u64; 23] = [
        0x300000_02_00_000000,
        0x200B00_00_03_000000,
        0x200B00_00_04_000000,
        0x300000_05_06_000000,
        0x200B00_00_00_000000,
        0x104001_00_07_000000,
        0x104002_00_08_000000,
        0x300000_09_00_000000,
        0x400000_0A_00_000000,
        0x500000_0B_00_000000,
        0x300000_0C_00_000000,
        0x300000_0D_00_000000,
        0x300000_0E_00_000000,
        0x300000_0F_00_000000,
        0x300000_10_00_000000,
        0x300000_11_00_000000,
        0x300000_12_00_000000,
        0x300000_13_00_000000,
        0x300000_14_00_000000,
        0x300000_15_00_000000,
        0x300000_16_00_000000,
        0x200B00_00_17_000000,
        0x200B00_00_00_000000,
    ];

    const FAULTS: [Fault; 6] = [
        // a closing bit
        Fault {
            number: 2,
            node: 2,
            record: 0x200B00_00_03_000001,
        },
        // a next that is no node
        Fault {
            number: 3,
            node: 23,
            record: 0x200B00_00_18_000000,
        },
        // a second next that is node 6
        Fault {
            number: 4,
            node: 5,
            record: 0x200B00_00_06_000000,
        },
        // kind 5
        Fault {
            number: 5,
            node: 6,
            record: 0x114001_00_07_000000,
        },
        // column 33
        Fault {
            number: 6,
            node: 7,
            record: 0x104021_00_08_000000,
        },
        // node 23 lies in node 22
        Fault {
            number: 7,
            node: 22,
            record: 0x300000_17_00_000000,
        },
    ];

    // Each fault alone, and with each fault of a greater number; a byte too many comes before all of them.
    #[test]
    fn the_first_fault_is_told(rt: HostRuntime) -> Result<(), Fail> {
        let heap = rt.alloc();
        let mut layout = Layout::new(heap)?;
        let file = file_of(heap, &SOUND, &[])?;
        assert_eq!(rt; answer(&mut layout, &Ascii, file.as_slice()), None);
        for first in FAULTS {
            for second in FAULTS {
                if second.number < first.number {
                    continue;
                }
                let mut nodes = SOUND;
                spoil(&mut nodes, second);
                spoil(&mut nodes, first);
                let mut file = file_of(heap, &nodes, &[])?;
                assert_eq!(rt;
                    answer(&mut layout, &Ascii, file.as_slice()),
                    Some(first.number)
                );
                file.push(0)?;
                assert_eq!(rt; answer(&mut layout, &Ascii, file.as_slice()), Some(1));
            }
        }
        Ok(())
    }

    // Whether each table meets what the case says, under ASCII.
    fn all_stand(heap: Global, cases: &[Case]) -> Result<bool, AllocError> {
        let mut layout = Layout::new(heap)?;
        for case in cases {
            let file = file_of(heap, case.nodes, case.constants)?;
            if answer(&mut layout, &Ascii, file.as_slice()) != case.wanted {
                return Ok(false);
            }
        }
        Ok(true)
    }

    // Shapes that are none, and bits that should be zero.
    #[test]
    fn shapes_are_judged(rt: HostRuntime) -> Result<(), Fail> {
        let cases = [
            sound(&INVOICE, &[]),
            refused(2, &[0x000000_00_00_000000], &[]),
            refused(2, &[0x600000_00_00_000000], &[]),
            refused(2, &[0x800000_00_00_000000], &[]),
            refused(2, &[0xF00000_00_00_000000], &[]),
            refused(2, &[0x200B00_00_00_800000], &[]),
            refused(2, &[0x104000_01_00_000000], &[]),
            refused(2, &[0x204B00_00_00_000000], &[]),
            refused(2, &[0x200B01_00_00_000000], &[]),
            refused(2, &[0x200B00_01_00_000000], &[]),
            refused(2, &[0x700041_01_00_000000], &[]),
            refused(2, &[0x300040_02_00_000000, 0x200B00_00_00_000000], &[]),
            refused(2, &[0x404000_02_00_000000, 0x200B00_00_00_000000], &[]),
            refused(2, &[0x500001_02_00_000000, 0x200B00_00_00_000000], &[]),
        ];
        assert!(rt; all_stand(rt.alloc(), &cases)?);
        Ok(())
    }

    // Links that lead back or nowhere, and nodes that are led to twice or never.
    #[test]
    fn links_are_judged(rt: HostRuntime) -> Result<(), Fail> {
        let cases = [
            refused(3, &[0x300000_00_00_000000], &[]),
            refused(3, &[0x400000_00_00_000000], &[]),
            refused(3, &[0x500000_00_00_000000], &[]),
            refused(3, &[0x300000_01_00_000000], &[]),
            refused(3, &[0x400000_02_00_000000], &[]),
            refused(3, &[0x200B00_00_02_000000, 0x200B00_00_00_000000], &[]),
            refused(3, &[0x300000_02_00_000000, 0x200B00_00_02_000000], &[]),
            refused(3, &[0x300000_02_00_000000, 0x200B00_00_03_000000], &[]),
            refused(
                3,
                &[
                    0x500000_02_00_000000,
                    0x200B00_00_03_000000,
                    0x200B00_00_00_000000,
                ],
                &[],
            ),
            refused(4, &[0x200B00_00_00_000000, 0x200B00_00_00_000000], &[]),
            refused(
                4,
                &[
                    0x300000_02_00_000000,
                    0x300000_03_03_000000,
                    0x200B00_00_00_000000,
                ],
                &[],
            ),
        ];
        assert!(rt; all_stand(rt.alloc(), &cases)?);
        Ok(())
    }

    // Kinds with their parameters.
    #[test]
    fn kinds_are_judged(rt: HostRuntime) -> Result<(), Fail> {
        let cases = [
            refused(5, &[0x100000_00_00_000000], &[]),
            refused(5, &[0x104040_00_00_000000], &[]),
            refused(5, &[0x108140_00_00_000000], &[]),
            sound(&[0x108100_00_00_000000], &[]),
            sound(&[0x113FC0_00_00_000000], &[]),
        ];
        assert!(rt; all_stand(rt.alloc(), &cases)?);
        Ok(())
    }

    // Columns, relations and right sides.
    #[test]
    fn columns_are_judged(rt: HostRuntime) -> Result<(), Fail> {
        let cases = [
            sound(&[0x104020_00_00_000000], &[]),
            refused(6, &[0x10403F_00_00_000000], &[]),
            refused(6, &[0x700041_00_00_000000], &[]),
            refused(6, &[0x714041_00_00_000000], &[]),
            refused(6, &[0x704040_00_00_000000], &[]),
            refused(6, &[0x704061_00_00_000000], &[]),
            refused(6, &[0x704001_00_00_000000], &[]),
            sound(&[0x704801_00_00_000000], &[]),
            refused(6, &[0x704841_00_00_000000], &[]),
            refused(6, &[0x704FC1_00_00_000000], &[]),
            refused(6, &[0x705001_00_00_000000], &[]),
            sound(&[0x705041_00_00_000000], &[1, 2]),
            refused(6, &[0x705081_00_00_000000], &[1, 2]),
            refused(6, &[0x706001_00_00_000000], &[1, 2]),
        ];
        assert!(rt; all_stand(rt.alloc(), &cases)?);
        Ok(())
    }

    #[test]
    fn sizes_are_judged(rt: HostRuntime) -> Result<(), Fail> {
        let heap = rt.alloc();
        let mut layout = Layout::new(heap)?;
        let mark = 0x200B00_00_00_000000;
        let short: [&[u8]; 6] = [
            b"",
            b"\x01",
            b"\x00\x00",
            b"\x01\x00\x20\x0B\x00\x00\x00\x00\x00",
            b"\x01\x01\x20\x0B\x00\x00\x00\x00\x00\x00",
            b"\x00\x01\x00\x00\x00\x00\x00\x00\x00\x00",
        ];
        for file in short {
            assert_eq!(rt; answer(&mut layout, &Ascii, file), Some(1));
        }
        for (count, wanted) in [(64, None), (65, Some(1))] {
            let file = file_of(heap, &[mark], &[-1; 65][..count])?;
            assert_eq!(rt; answer(&mut layout, &Ascii, file.as_slice()), wanted);
        }
        assert!(rt; layout.constants() == [-1; 64].as_slice());
        // a sequence of marks
        for (count, wanted) in [(200, None), (201, Some(1))] {
            let mut nodes = vec![in heap; 0x300000_02_00_000000]?;
            for next in 3..=count {
                nodes.push(mark + (next << 24))?;
            }
            nodes.push(mark)?;
            let file = file_of(heap, nodes.as_slice(), &[])?;
            assert_eq!(rt; answer(&mut layout, &Ascii, file.as_slice()), wanted);
        }
        assert_eq!(rt; layout.nodes().len(), 200);
        Ok(())
    }

    // A mark inside so many sequences, choices or options.
    #[test]
    fn depths_are_judged(rt: HostRuntime) -> Result<(), Fail> {
        let heap = rt.alloc();
        let mut layout = Layout::new(heap)?;
        for shape in [
            0x300000_00_00_000000,
            0x400000_00_00_000000,
            0x500000_00_00_000000,
        ] {
            for (depth, wanted) in [(16, None), (17, Some(7))] {
                let mut nodes = Vec::new(heap);
                for child in 2..=depth {
                    nodes.push(shape + (child << 32))?;
                }
                nodes.push(0x200B00_00_00_000000)?;
                let file = file_of(heap, nodes.as_slice(), &[])?;
                assert_eq!(rt; answer(&mut layout, &Ascii, file.as_slice()), wanted);
            }
        }
        Ok(())
    }

    // Kind 33 with parameter 1 is the second family's kind 1.
    #[test]
    fn kinds_are_the_family_s(rt: HostRuntime) -> Result<(), Fail> {
        let mut layout = Layout::new(rt.alloc())?;
        let paired = b"\x01\x00\x18\x40\x40\x00\x00\x00\x00\x00";
        let inner = Pair::new(Ascii, Binary);
        assert_eq!(rt; answer(&mut layout, &Ascii, paired), Some(5));
        assert_eq!(rt; answer(&mut layout, &Binary, paired), Some(5));
        assert_eq!(rt;
            answer(&mut layout, &Pair::new(Ascii, Ascii), paired),
            Some(5)
        );
        assert_eq!(rt;
            answer(&mut layout, &Pair::new(inner, Ascii), paired),
            Some(5)
        );
        assert_eq!(rt; answer(&mut layout, &inner, paired), None);
        Ok(())
    }

    // Children and siblings only need to rise: the nodes are read as 1, 2, 4, 5, 3, 6.
    #[test]
    fn numbers_only_rise(rt: HostRuntime) -> Result<(), Fail> {
        let heap = rt.alloc();
        let mut layout = Layout::new(heap)?;
        let shuffled = [
            0x300000_02_00_000000,
            0x400000_04_03_000000,
            0x200B00_00_06_000000,
            0x104001_00_05_000000,
            0x110B00_00_00_000000,
            0x200EC0_00_00_000000,
        ];
        let file = file_of(heap, &shuffled, &[])?;
        assert_eq!(rt; answer(&mut layout, &Ascii, file.as_slice()), None);
        let outline = layout.outline(heap)?;
        let wanted = [(1, 1), (2, 2), (4, 3), (5, 3), (3, 2), (6, 2)];
        assert_eq!(rt; outline.len(), wanted.len());
        for (entry, (number, depth)) in outline.iter().zip(wanted) {
            assert_eq!(rt; *entry, Entry { number, depth });
        }
        Ok(())
    }

    // Whatever is refused, the table loaded before stays.
    #[test]
    fn a_refusal_changes_nothing(rt: HostRuntime) -> Result<(), Fail> {
        let heap = rt.alloc();
        let mut layout = Layout::new(heap)?;
        let mut kept = Layout::new(heap)?;
        let good = file_of(heap, &INVOICE, &[7, -7])?;
        assert_eq!(rt; answer(&mut kept, &Ascii, good.as_slice()), None);
        assert_eq!(rt; answer(&mut layout, &Ascii, good.as_slice()), None);
        assert!(rt; layout.constants() == [7, -7].as_slice());
        assert_eq!(rt; answer(&mut layout, &Ascii, b"\x01\x00"), Some(1));
        for fault in FAULTS {
            let mut nodes = SOUND;
            spoil(&mut nodes, fault);
            let file = file_of(heap, &nodes, &[1])?;
            assert!(rt; answer(&mut layout, &Ascii, file.as_slice()).is_some());
            assert!(rt; layout.nodes() == kept.nodes());
            assert!(rt; layout.constants() == kept.constants());
        }
        Ok(())
    }
}
