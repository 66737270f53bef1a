// Scripts that walk. Each field stands beside the line that it prints, which was worked out by hand: the place is the sum of the
// lengths before it, 3 bytes more than each value, and the nodes are those that the order from the root gives.
// Row 1 stands with the fields that erase nodes.
use crate::linking::replays;
use std::process::Abort;
use std::test::Fail;

// From each kind of root, and every row that can fit.
const ROOTS_AND_ROWS: [(&'static str, &'static str); 28] = [
    // The table o0, r0, b0, o2; and the symbol o1, r1, b1.
    ("01 0002 01 01", "0 ok o0 r0 b0"),
    ("01 0005 02 01 70 75 74", "5 ok o1 r1"),
    ("02 0000", "13 ok b1"),
    ("04 0005 01 0001 0001", "16 ok"),
    ("01 0002 04 00", "24 ok o2"),
    ("03 0005 01 0002 0000", "29 ok"),
    // From a node of each kind.
    (
        "0E 000A 00 0000 00 03 0000 03 0000",
        "37 ok o0 r0 b0 o2 end",
    ),
    ("0E 000A 00 0001 00 03 0000 03 0000", "50 ok o1 r1 b1 end"),
    ("0E 000A 02 0000 00 03 0000 03 0000", "63 ok r0 b0 o2 end"),
    ("0E 000A 01 0000 00 03 0000 03 0000", "76 ok b0 o2 end"),
    ("0E 000A 01 0001 00 03 0000 03 0000", "89 ok b1 end"),
    // A byte too few, and one too many.
    ("0E 0009 00 0000 00 03 0000 03 00", "102 refused 23"),
    ("0E 000B 00 0000 00 03 0000 03 0000 00", "114 refused 23"),
    // A root of kind 03, a configuration of 40, and kinds 04.
    ("0E 000A 03 0000 00 03 0000 03 0000", "128 refused 23"),
    ("0E 000A 00 0000 40 03 0000 03 0000", "141 refused 23"),
    ("0E 000A 00 0000 00 04 0000 03 0000", "154 refused 23"),
    ("0E 000A 00 0000 00 03 0000 04 0000", "167 refused 23"),
    // No o3; no b2, though there is an o2; no r2. The high byte comes first: this is 256, and not 1.
    ("0E 000A 00 0003 00 03 0000 03 0000", "180 refused 24"),
    ("0E 000A 01 0002 00 03 0000 03 0000", "193 refused 24"),
    ("0E 000A 02 0002 00 03 0000 03 0000", "206 refused 24"),
    ("0E 000A 00 0100 00 03 0000 03 0000", "219 refused 24"),
    // The same of the node answered Skip, and of the one answered Break.
    ("0E 000A 00 0000 00 00 0003 03 0000", "232 refused 24"),
    ("0E 000A 00 0000 00 02 0002 03 0000", "245 refused 24"),
    ("0E 000A 00 0000 00 03 0000 01 0002", "258 refused 24"),
    ("0E 000A 00 0000 00 00 0000 00 0003", "271 refused 24"),
    // 23 and 24: no o9, and a configuration of 40.
    ("0E 000A 00 0009 40 03 0000 03 0000", "284 refused 23"),
    // The number of no node is not read.
    (
        "0E 000A 00 0000 00 03 ffff 03 ffff",
        "297 ok o0 r0 b0 o2 end",
    ),
    // A walk numbers nothing.
    ("02 0000", "310 ok b2"),
];

#[test]
fn every_root_and_every_row(rt: HostRuntime) -> Result<(), Fail> {
    replays(&rt, &ROOTS_AND_ROWS)
}

// Orders, directions, Skip and Break.
const ORDERS: [(&'static str, &'static str); 37] = [
    // o0 has r0, with b0 and b1, and r1, with b2; in b0 stand o1 and o2, and in b2 stands o3.
    ("01 0002 00 02", "0 ok o0 r0 r1"),
    ("02 0000", "5 ok b0"),
    ("02 0000", "8 ok b1"),
    ("02 0000", "11 ok b2"),
    ("04 0005 01 0000 0000", "14 ok"),
    ("04 0005 01 0001 0000", "22 ok"),
    ("04 0005 01 0002 0001", "30 ok"),
    ("01 0002 00 00", "38 ok o1"),
    ("01 0002 00 00", "43 ok o2"),
    ("01 0002 00 00", "48 ok o3"),
    ("03 0005 01 0001 0000", "53 ok"),
    ("03 0005 01 0002 0000", "61 ok"),
    ("03 0005 01 0003 0002", "69 ok"),
    // Each node before its children, forward.
    (
        "0E 000A 00 0000 00 03 0000 03 0000",
        "77 ok o0 r0 b0 o1 o2 b1 r1 b2 o3 end",
    ),
    // Reverse: regions in operations, operations in blocks, blocks in regions, and all.
    (
        "0E 000A 00 0000 02 03 0000 03 0000",
        "90 ok o0 r1 b2 o3 r0 b0 o1 o2 b1 end",
    ),
    (
        "0E 000A 00 0000 08 03 0000 03 0000",
        "103 ok o0 r0 b0 o2 o1 b1 r1 b2 o3 end",
    ),
    (
        "0E 000A 00 0000 20 03 0000 03 0000",
        "116 ok o0 r0 b1 b0 o1 o2 r1 b2 o3 end",
    ),
    (
        "0E 000A 00 0000 2a 03 0000 03 0000",
        "129 ok o0 r1 b2 o3 r0 b1 b0 o2 o1 end",
    ),
    // Post: operations, blocks, regions, and all.
    (
        "0E 000A 00 0000 01 03 0000 03 0000",
        "142 ok r0 b0 o1 o2 b1 r1 b2 o3 o0 end",
    ),
    (
        "0E 000A 00 0000 04 03 0000 03 0000",
        "155 ok o0 r0 o1 o2 b0 b1 r1 o3 b2 end",
    ),
    (
        "0E 000A 00 0000 10 03 0000 03 0000",
        "168 ok o0 b0 o1 o2 b1 r0 b2 o3 r1 end",
    ),
    (
        "0E 000A 00 0000 15 03 0000 03 0000",
        "181 ok o1 o2 b0 b1 r0 o3 b2 r1 o0 end",
    ),
    // All of both.
    (
        "0E 000A 00 0000 3f 03 0000 03 0000",
        "194 ok o3 b2 r1 b1 o2 o1 b0 r0 o0 end",
    ),
    // Skip at b0: b1 is still shown.
    (
        "0E 000A 00 0000 00 01 0000 03 0000",
        "207 ok o0 r0 b0 b1 r1 b2 o3 end",
    ),
    ("0E 000A 02 0000 00 01 0000 03 0000", "220 ok r0 b0 b1 end"),
    // Skip at b0 where it is shown after its operations.
    (
        "0E 000A 00 0000 04 01 0000 03 0000",
        "233 ok o0 r0 o1 o2 b0 b1 r1 o3 b2 end",
    ),
    // Break at o2, at b1 before r0, and at the root: first and last.
    (
        "0E 000A 00 0000 00 03 0000 00 0002",
        "246 ok o0 r0 b0 o1 o2 break",
    ),
    (
        "0E 000A 00 0000 10 03 0000 01 0001",
        "259 ok o0 b0 o1 o2 b1 break",
    ),
    ("0E 000A 00 0000 00 03 0000 00 0000", "272 ok o0 break"),
    (
        "0E 000A 00 0000 01 03 0000 00 0000",
        "285 ok r0 b0 o1 o2 b1 r1 b2 o3 o0 break",
    ),
    // Skip and Break at r1: Break wins. Break at o3, which Skip at r1 hides. Skip at o1 and Break at b1.
    (
        "0E 000A 00 0000 00 02 0001 02 0001",
        "298 ok o0 r0 b0 o1 o2 b1 r1 break",
    ),
    (
        "0E 000A 00 0000 00 02 0001 00 0003",
        "311 ok o0 r0 b0 o1 o2 b1 r1 end",
    ),
    (
        "0E 000A 00 0000 00 00 0001 01 0001",
        "324 ok o0 r0 b0 o1 o2 b1 break",
    ),
    // Skip and Break at nodes that the walk from r1 does not come to.
    ("0E 000A 02 0001 00 01 0000 00 0002", "337 ok r1 b2 o3 end"),
    // o1 goes to the end of b2, and is shown there.
    ("05 0002 0001", "350 ok"),
    ("03 0005 01 0001 0002", "355 ok"),
    (
        "0E 000A 00 0000 00 03 0000 03 0000",
        "363 ok o0 r0 b0 o2 b1 r1 b2 o3 o1 end",
    ),
];

#[test]
fn orders_skips_and_breaks(rt: HostRuntime) -> Result<(), Fail> {
    replays(&rt, &ORDERS)
}
