// Scripts that put symbols into tables, take them out, look them up and erase nodes. Each field stands beside the line that it prints,
// which was worked out by hand: the place is the sum of the lengths before it, 3 bytes more than each value, and the reason for an answer
// stands beside it.
use crate::linking::replays;
use std::process::Abort;
use std::test::Fail;

// A symbol goes before the terminator of a table, is found there, and does not go there again.
const A_TABLE: [(&'static str, &'static str); 10] = [
    ("01 0002 01 01", "0 ok o0 r0 b0"),
    ("01 0005 02 01 70 75 74", "5 ok o1 r1"),
    ("02 0000", "13 ok b1"),
    ("04 0005 01 0001 0001", "16 ok"),
    ("01 0002 04 00", "24 ok o2"),
    ("03 0005 01 0002 0000", "29 ok"),
    ("07 0007 0000 0001 00 0000", "37 ok"),
    ("0C 0005 0000 70 75 74", "47 ok o1"),
    (
        "0E 000A 00 0000 00 03 0000 03 0000",
        "55 ok o0 r0 b0 o1 r1 b1 o2 end",
    ),
    ("07 0007 0000 0001 00 0000", "68 refused 9"),
];

#[test]
fn a_symbol_is_put_and_found(rt: HostRuntime) -> Result<(), Fail> {
    replays(&rt, &A_TABLE)
}

// Every point, and every row of putting a symbol into a table.
const INSERTS: [(&'static str, &'static str); 49] = [
    // The tables o0 and o4, the symbols "put", "get" and "put", an operation, a block, and the table and symbol o6.
    ("01 0002 01 01", "0 ok o0 r0 b0"),
    ("01 0005 02 01 70 75 74", "5 ok o1 r1"),
    ("01 0005 02 00 67 65 74", "13 ok o2"),
    ("01 0005 02 00 70 75 74", "21 ok o3"),
    ("01 0002 01 01", "29 ok o4 r2 b1"),
    ("01 0002 00 00", "34 ok o5"),
    ("02 0000", "39 ok b2"),
    ("01 0005 03 01 74 6f 70", "42 ok o6 r3 b3"),
    // A byte too few, a byte too many, and a point past 05.
    ("07 0006 0000 0001 00 00", "50 refused 23"),
    ("07 0008 0000 0001 00 0000 00", "59 refused 23"),
    ("07 0007 0000 0001 06 0000", "70 refused 23"),
    // No o7 as a table or a symbol; no b4 and no o7 as the node of a point. There is an o5, and no b5.
    ("07 0007 0007 0001 00 0000", "80 refused 24"),
    ("07 0007 0000 0007 00 0000", "90 refused 24"),
    ("07 0007 0000 0001 02 0004", "100 refused 24"),
    ("07 0007 0000 0001 03 0005", "110 refused 24"),
    ("07 0007 0000 0001 04 0007", "120 refused 24"),
    ("07 0007 0000 0001 05 0007", "130 refused 24"),
    // 23 and 24: no point 06, and no o9.
    ("07 0007 0009 0001 06 0000", "140 refused 23"),
    // o5 is no table; o5 is no symbol; 2 and 3.
    ("07 0007 0005 0001 00 0000", "150 refused 2"),
    ("07 0007 0000 0005 00 0000", "160 refused 3"),
    ("07 0007 0005 0005 00 0000", "170 refused 2"),
    // A point that was not set, whose node is not read; o5 stands nowhere.
    ("07 0007 0000 0001 01 ffff", "180 refused 11"),
    ("07 0007 0000 0001 04 0005", "190 refused 11"),
    ("07 0007 0000 0001 05 0005", "200 refused 11"),
    // b2 and b1 are not the body of o0.
    ("07 0007 0000 0001 02 0002", "210 refused 12"),
    ("07 0007 0000 0001 03 0001", "220 refused 12"),
    // A fresh table that is a symbol, into itself.
    ("07 0007 0006 0006 00 0000", "230 refused 18"),
    // Without a point the node is not read.
    ("07 0007 0000 0001 00 ffff", "240 ok"),
    // o3 has the name of o1; o1 itself stands there; o1 stands in another table than o4; 9 and 11.
    ("07 0007 0000 0003 00 0000", "250 refused 9"),
    ("07 0007 0000 0001 00 0000", "260 refused 9"),
    ("07 0007 0004 0001 00 0000", "270 refused 10"),
    ("07 0007 0000 0003 01 0000", "280 refused 9"),
    // 10 and 11.
    ("07 0007 0004 0001 01 0000", "290 refused 10"),
    // o2 stands in b2, which no operation has; 11 and 14; 12 and 14.
    ("03 0005 00 0002 0002", "300 ok"),
    ("07 0007 0000 0002 00 0000", "308 refused 14"),
    ("07 0007 0000 0002 01 0000", "318 refused 11"),
    ("07 0007 0000 0002 02 0002", "328 refused 12"),
    ("05 0002 0002", "338 ok"),
    // No refusal moved anything: only o1 stands in b0.
    ("0E 000A 01 0000 00 03 0000 03 0000", "343 ok b0 o1 r1 end"),
    // Every point: o2 o1; o2 o6 o1; o2 o7 o6 o1; o2 o7 o6 o1 o8.
    ("01 0005 02 00 6c 6f 67", "356 ok o7"),
    ("01 0005 02 00 65 6e 64", "364 ok o8"),
    ("07 0007 0000 0002 02 0000", "372 ok"),
    ("07 0007 0000 0006 05 0001", "382 ok"),
    ("07 0007 0000 0007 04 0002", "392 ok"),
    ("07 0007 0000 0008 03 0000", "402 ok"),
    (
        "0E 000A 01 0000 00 03 0000 03 0000",
        "412 ok b0 o2 o7 o6 r3 b3 o1 r1 o8 end",
    ),
    // "put" is free in o4.
    ("07 0007 0004 0003 00 0000", "425 ok"),
    ("0C 0005 0004 70 75 74", "435 ok o3"),
    ("0C 0005 0000 70 75 74", "443 ok o1"),
];

#[test]
fn every_point_and_every_row(rt: HostRuntime) -> Result<(), Fail> {
    replays(&rt, &INSERTS)
}

// Every row of taking a symbol out of a table.
const REMOVALS: [(&'static str, &'static str); 25] = [
    // The tables o0 and o2, the symbol "put", and an operation.
    ("01 0002 01 01", "0 ok o0 r0 b0"),
    ("01 0005 02 00 70 75 74", "5 ok o1"),
    ("01 0002 01 01", "13 ok o2 r1 b1"),
    ("01 0002 00 00", "18 ok o3"),
    // A byte too few, and one too many; no o9 as a table or a symbol; 23 and 24.
    ("08 0003 0000 00", "23 refused 23"),
    ("08 0005 0000 0001 00", "29 refused 23"),
    ("08 0004 0009 0001", "37 refused 24"),
    ("08 0004 0000 0009", "44 refused 24"),
    ("08 0003 0009 00", "51 refused 23"),
    // o3 is no table; o3 is no symbol; 2 and 3; o1 stands nowhere.
    ("08 0004 0003 0001", "57 refused 2"),
    ("08 0004 0000 0003", "64 refused 3"),
    ("08 0004 0003 0003", "71 refused 2"),
    ("08 0004 0000 0001", "78 refused 13"),
    // o1 stands in o0, and not in o2. The table comes first.
    ("07 0007 0000 0001 00 0000", "85 ok"),
    ("08 0004 0002 0001", "95 refused 13"),
    ("08 0004 0001 0000", "102 refused 2"),
    ("0C 0005 0000 70 75 74", "109 ok o1"),
    ("08 0004 0000 0001", "117 ok"),
    ("0C 0005 0000 70 75 74", "124 ok none"),
    ("08 0004 0000 0001", "132 refused 13"),
    // It is free to go into the other table.
    ("07 0007 0002 0001 00 0000", "139 ok"),
    ("0C 0005 0002 70 75 74", "149 ok o1"),
    // Of what was erased no table and no symbol is left.
    ("0A 0002 0003", "157 ok"),
    ("08 0004 0003 0001", "162 refused 1"),
    ("08 0004 0000 0003", "169 refused 1"),
];

#[test]
fn a_symbol_is_taken_out(rt: HostRuntime) -> Result<(), Fail> {
    replays(&rt, &REMOVALS)
}

// Every row of looking up a name in a table and in the nearest one.
const LOOKUPS: [(&'static str, &'static str); 45] = [
    // The tables o0 and o2, of which the second is a symbol in the first; "put" in o0; and an operation in o1.
    ("01 0002 01 01", "0 ok o0 r0 b0"),
    ("01 0005 02 01 70 75 74", "5 ok o1 r1"),
    ("01 0005 03 01 74 6f 70", "13 ok o2 r2 b1"),
    ("02 0000", "21 ok b2"),
    ("01 0002 00 00", "24 ok o3"),
    ("04 0005 00 0002 0001", "29 ok"),
    ("03 0005 00 0003 0002", "37 ok"),
    ("07 0007 0000 0001 00 0000", "45 ok"),
    ("07 0007 0000 0002 00 0000", "55 ok"),
    // No byte, and one byte; no o9; 23 and 24.
    ("0C 0000", "65 refused 23"),
    ("0C 0001 00", "68 refused 23"),
    ("0C 0005 0009 70 75 74", "72 refused 24"),
    ("0C 0001 09", "80 refused 23"),
    ("0D 0000", "84 refused 23"),
    ("0D 0001 00", "87 refused 23"),
    ("0D 0005 0009 70 75 74", "91 refused 24"),
    ("0D 0001 09", "99 refused 23"),
    // o1 and o3 are no tables; 2 and 6.
    ("0C 0005 0001 70 75 74", "103 refused 2"),
    ("0C 0005 0003 70 75 74", "111 refused 2"),
    ("0C 0002 0001", "119 refused 2"),
    // The empty name, a digit first, 33 letters, and 32.
    ("0C 0002 0000", "124 refused 6"),
    ("0C 0004 0000 39 61", "129 refused 6"),
    (
        "0C 0023 0000 616161616161616161616161616161616161616161616161616161616161616161",
        "136 refused 5",
    ),
    (
        "0C 0022 0000 6161616161616161616161616161616161616161616161616161616161616161",
        "174 ok none",
    ),
    // The empty name, a digit first, 33 letters, and 32.
    ("0D 0002 0000", "211 refused 6"),
    ("0D 0004 0000 39 61", "216 refused 6"),
    (
        "0D 0023 0000 616161616161616161616161616161616161616161616161616161616161616161",
        "223 refused 5",
    ),
    (
        "0D 0022 0000 6161616161616161616161616161616161616161616161616161616161616161",
        "261 ok none",
    ),
    // In each table.
    ("0C 0005 0000 70 75 74", "298 ok o1"),
    ("0C 0005 0000 74 6f 70", "306 ok o2"),
    ("0C 0005 0002 70 75 74", "314 ok none"),
    ("0C 0005 0000 67 65 74", "322 ok none"),
    // The nearest table: of o0 itself; of o1 and o3 it is o0; of o2 it is o2.
    ("0D 0005 0000 70 75 74", "330 ok o1"),
    ("0D 0005 0001 74 6f 70", "338 ok o2"),
    ("0D 0005 0003 70 75 74", "346 ok o1"),
    ("0D 0005 0002 70 75 74", "354 ok none"),
    ("0D 0002 0003", "362 refused 6"),
    // An operation in no table: none is found, but the name is still tested.
    ("01 0002 00 00", "367 ok o4"),
    ("0D 0005 0004 70 75 74", "372 ok none"),
    ("0D 0004 0004 39 61", "380 refused 6"),
    // What was erased is no table any more, and no lookup starts from it; 1 and 6.
    ("0A 0002 0004", "387 ok"),
    ("0C 0005 0004 70 75 74", "392 refused 1"),
    ("0D 0005 0004 70 75 74", "400 refused 1"),
    ("0D 0002 0004", "408 refused 1"),
    ("0C 0002 0004", "413 refused 1"),
];

#[test]
fn names_are_looked_up(rt: HostRuntime) -> Result<(), Fail> {
    replays(&rt, &LOOKUPS)
}

// Every row of erasing, and what is left.
const ERASURES: [(&'static str, &'static str); 56] = [
    // The table o0 with "put", in which b1 has o2 and o3; and b2 with o4.
    ("01 0002 01 01", "0 ok o0 r0 b0"),
    ("01 0005 02 01 70 75 74", "5 ok o1 r1"),
    ("02 0000", "13 ok b1"),
    ("02 0000", "16 ok b2"),
    ("01 0002 00 00", "19 ok o2"),
    ("01 0002 00 00", "24 ok o3"),
    ("01 0002 00 00", "29 ok o4"),
    ("04 0005 00 0001 0001", "34 ok"),
    ("03 0005 00 0002 0001", "42 ok"),
    ("03 0005 01 0003 0001", "50 ok"),
    ("03 0005 00 0004 0002", "58 ok"),
    ("07 0007 0000 0001 00 0000", "66 ok"),
    // A byte too few, and one too many; no o9 and no b3, though there is an o3; 23 and 24.
    ("0A 0001 04", "76 refused 23"),
    ("0A 0003 0004 00", "80 refused 23"),
    ("0A 0002 0009", "86 refused 24"),
    ("0A 0001 09", "91 refused 23"),
    ("0B 0001 02", "95 refused 23"),
    ("0B 0003 0002 00", "99 refused 23"),
    ("0B 0002 0003", "105 refused 24"),
    ("0B 0003 0009 00", "110 refused 23"),
    // A symbol in a table goes only through the table, and is not unlinked from it either; b0 is the body of o0.
    ("0A 0002 0001", "116 refused 19"),
    ("05 0002 0001", "121 refused 19"),
    ("0B 0002 0000", "126 refused 17"),
    ("0C 0005 0000 70 75 74", "131 ok o1"),
    // o2 is gone, and stays gone: nothing more is done with it.
    ("0A 0002 0002", "139 ok"),
    ("0A 0002 0002", "144 refused 1"),
    ("05 0002 0002", "149 refused 1"),
    ("03 0005 00 0002 0002", "154 refused 1"),
    ("03 0005 02 0004 0002", "162 refused 1"),
    ("07 0007 0002 0001 00 0000", "170 refused 1"),
    ("07 0007 0000 0002 00 0000", "180 refused 1"),
    ("07 0007 0000 0001 04 0002", "190 refused 1"),
    ("0E 000A 00 0002 00 03 0000 03 0000", "200 refused 1"),
    // Only the root of a walk must be live.
    (
        "0E 000A 00 0000 00 00 0002 00 0002",
        "213 ok o0 r0 b0 o1 r1 b1 o3 end",
    ),
    // The next operation gets a number of its own, though its place may be that of o2.
    ("01 0002 00 00", "226 ok o5"),
    ("03 0005 00 0005 0001", "231 ok"),
    ("0E 000A 01 0001 00 03 0000 03 0000", "239 ok b1 o5 o3 end"),
    ("0A 0002 0002", "252 refused 1"),
    // A block ends with its operations.
    ("0B 0002 0002", "257 ok"),
    ("0B 0002 0002", "262 refused 1"),
    ("06 0002 0002", "267 refused 1"),
    ("04 0005 00 0002 0001", "272 refused 1"),
    ("03 0005 00 0005 0002", "280 refused 1"),
    ("07 0007 0000 0001 02 0002", "288 refused 1"),
    ("0E 000A 01 0002 00 03 0000 03 0000", "298 refused 1"),
    ("0A 0002 0004", "311 refused 1"),
    ("02 0000", "316 ok b3"),
    // All that lies below the table ends with it.
    ("0A 0002 0000", "319 ok"),
    ("0A 0002 0001", "324 refused 1"),
    ("0A 0002 0005", "329 refused 1"),
    ("0B 0002 0000", "334 refused 1"),
    ("0B 0002 0001", "339 refused 1"),
    ("0E 000A 02 0001 00 03 0000 03 0000", "344 refused 1"),
    ("0C 0005 0000 70 75 74", "357 refused 1"),
    ("01 0002 01 01", "365 ok o6 r2 b4"),
    ("0C 0005 0006 70 75 74", "370 ok none"),
];

#[test]
fn what_is_erased_is_gone(rt: HostRuntime) -> Result<(), Fail> {
    replays(&rt, &ERASURES)
}
