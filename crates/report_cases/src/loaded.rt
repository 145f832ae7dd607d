// A packed list of nodes and one of constants, loaded.
use packed::loader::{Packed, load};
use packed::record::NodeRecord;

#[test]
fn packed_lists(rt: HostRuntime) {
    let bytes = [
        0x11, 0x80, 0x02, 0, 0x05, 0, 0, 0, 0x20, 0x0B, 0, 0, 0x04, 0, 0, 0, 0xFF,
    ];
    let mut nodes = [NodeRecord::unpack(&[0; 8]); 3];
    assert_eq!(rt; load(&bytes, &mut nodes), 2);
    let field = NodeRecord {
        shape: 1,
        kind: 6,
        parameter: 0,
        column: 2,
        child: 0,
        next: 5,
        rest: 0,
    };
    let mark = NodeRecord {
        shape: 2,
        kind: 0,
        parameter: 0x2C,
        column: 0,
        child: 0,
        next: 4,
        rest: 0,
    };
    let blank = NodeRecord {
        shape: 0,
        kind: 0,
        parameter: 0,
        column: 0,
        child: 0,
        next: 0,
        rest: 0,
    };
    assert_eq!(rt; nodes, [field, mark, blank]);
    let mut constants = [0i64];
    assert_eq!(rt; load(&[0xFF; 8], &mut constants), 1);
    assert_eq!(rt; constants, [-1]);
}
