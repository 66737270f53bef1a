// Scripts that erase symbols out of tables, and that walk tables. Each field stands beside the line that it prints, which was worked out by
// hand: the place is the sum of the lengths before it, 3 bytes more than each value, and the reason for an answer stands beside it.
use crate::linking::replays;
use std::process::Abort;
use std::test::Fail;

// Every row of erasing a symbol out of a table, and what is left.
const ERASED_SYMBOLS: [(&'static str, &'static str); 44] = [
    // The tables o0 and o2, the symbol "put" with a region, an operation, the table o4 that is the symbol "top", and the symbol "get".
    ("01 0002 01 01", "0 ok o0 r0 b0"),
    ("01 0005 02 01 70 75 74", "5 ok o1 r1"),
    ("01 0002 01 01", "13 ok o2 r2 b1"),
    ("01 0002 00 00", "18 ok o3"),
    ("01 0005 03 01 74 6f 70", "23 ok o4 r3 b2"),
    ("01 0005 02 00 67 65 74", "31 ok o5"),
    // A byte too few, and one too many; no o9 as a table or a symbol; 23 and 24.
    ("09 0003 0000 00", "39 refused 23"),
    ("09 0005 0000 0001 00", "45 refused 23"),
    ("09 0004 0009 0001", "53 refused 24"),
    ("09 0004 0000 0009", "60 refused 24"),
    ("09 0003 0009 00", "67 refused 23"),
    // o3 is no table; o3 is no symbol; 2 and 3; o1 stands nowhere; o4 stands not in itself; 2 and 13.
    ("09 0004 0003 0001", "73 refused 2"),
    ("09 0004 0000 0003", "80 refused 3"),
    ("09 0004 0003 0003", "87 refused 2"),
    ("09 0004 0000 0001", "94 refused 13"),
    ("09 0004 0004 0004", "101 refused 13"),
    ("09 0004 0001 0001", "108 refused 2"),
    // o1 and o4 stand in o0, and o5 in o4: o1 is not in o2, and o5 not directly in o0. The table comes first.
    ("07 0007 0000 0001 00 0000", "115 ok"),
    ("07 0007 0000 0004 00 0000", "125 ok"),
    ("07 0007 0004 0005 00 0000", "135 ok"),
    ("09 0004 0002 0001", "145 refused 13"),
    ("09 0004 0000 0005", "152 refused 13"),
    ("09 0004 0001 0000", "159 refused 2"),
    ("0C 0005 0000 70 75 74", "166 ok o1"),
    // "put" ends with its region, and the name is free.
    ("09 0004 0000 0001", "174 ok"),
    ("0C 0005 0000 70 75 74", "181 ok none"),
    ("0E 000A 02 0001 00 03 0000 03 0000", "189 refused 1"),
    (
        "0E 000A 01 0000 00 03 0000 03 0000",
        "202 ok b0 o4 r3 b2 o5 end",
    ),
    ("01 0005 02 00 70 75 74", "215 ok o6"),
    ("07 0007 0000 0006 00 0000", "223 ok"),
    ("0C 0005 0000 70 75 74", "233 ok o6"),
    // o1 stays gone; 1 and 2; 1 and 3; 24 and 1.
    ("09 0004 0000 0001", "241 refused 1"),
    ("09 0004 0001 0006", "248 refused 1"),
    ("09 0004 0003 0001", "255 refused 1"),
    ("09 0004 0001 0003", "262 refused 1"),
    ("09 0004 0001 0009", "269 refused 24"),
    // The nested table ends with what stands in it, and the names in it are found nowhere.
    ("0C 0005 0004 67 65 74", "276 ok o5"),
    ("09 0004 0000 0004", "284 ok"),
    ("0C 0005 0000 74 6f 70", "291 ok none"),
    ("0C 0005 0004 67 65 74", "299 refused 1"),
    ("0D 0005 0005 67 65 74", "307 refused 1"),
    ("09 0004 0004 0005", "315 refused 1"),
    ("0F 0002 0004", "322 refused 1"),
    ("0E 000A 01 0000 00 03 0000 03 0000", "327 ok b0 o6 end"),
];

#[test]
fn a_symbol_is_erased_out_of_a_table(rt: HostRuntime) -> Result<(), Fail> {
    replays(&rt, &ERASED_SYMBOLS)
}

// Every row of walking a table, and what is shown.
const TABLE_WALKS: [(&'static str, &'static str); 43] = [
    // The table o0 with o1, the symbol "put", the table and symbol o5, and a terminator; o1 has o2 and the table o8 in b1, and o3 in b2.
    ("01 0002 01 01", "0 ok o0 r0 b0"),
    ("01 0002 00 02", "5 ok o1 r1 r2"),
    ("02 0000", "10 ok b1"),
    ("02 0000", "13 ok b2"),
    ("04 0005 00 0001 0001", "16 ok"),
    ("04 0005 00 0002 0002", "24 ok"),
    ("01 0002 00 00", "32 ok o2"),
    ("01 0002 00 00", "37 ok o3"),
    ("01 0005 02 01 70 75 74", "42 ok o4 r3"),
    ("01 0005 03 01 74 6f 70", "50 ok o5 r4 b3"),
    ("01 0005 02 00 67 65 74", "58 ok o6"),
    ("01 0002 04 00", "66 ok o7"),
    ("01 0002 01 01", "71 ok o8 r5 b4"),
    ("01 0002 00 00", "76 ok o9"),
    // Nothing stands in a fresh table.
    ("0F 0002 0000", "81 ok end"),
    ("03 0005 00 0001 0000", "86 ok"),
    ("03 0005 01 0007 0000", "94 ok"),
    ("03 0005 00 0002 0001", "102 ok"),
    ("03 0005 00 0003 0002", "110 ok"),
    ("03 0005 01 0008 0001", "118 ok"),
    ("03 0005 00 0009 0004", "126 ok"),
    ("07 0007 0000 0004 00 0000", "134 ok"),
    ("07 0007 0000 0005 00 0000", "144 ok"),
    ("07 0007 0005 0006 00 0000", "154 ok"),
    // The operations before what lies below them; the nested tables o5 and o8 and what stands in them are not shown.
    ("0F 0002 0000", "164 ok o1 o2 o3 o4 o7 end"),
    ("0F 0002 0005", "169 ok o6 end"),
    ("0F 0002 0008", "174 ok o9 end"),
    (
        "0E 000A 02 0000 00 03 0000 03 0000",
        "179 ok r0 b0 o1 r1 b1 o2 o8 r5 b4 o9 r2 b2 o3 o4 r3 o5 r4 b3 o6 o7 end",
    ),
    // No byte, one, and three; no o10; 23 and 24. The high byte comes first: this is 256, and not 1.
    ("0F 0000", "192 refused 23"),
    ("0F 0001 00", "195 refused 23"),
    ("0F 0003 0000 00", "199 refused 23"),
    ("0F 0002 000A", "205 refused 24"),
    ("0F 0001 0A", "210 refused 23"),
    ("0F 0002 0100", "214 refused 24"),
    // o1 has regions, and is no table; o4 is a symbol, and no table.
    ("0F 0002 0001", "219 refused 2"),
    ("0F 0002 0004", "224 refused 2"),
    // Of what was erased no table is left, and what was no table dangles too: 1 and 2.
    ("0A 0002 0008", "229 ok"),
    ("0A 0002 0003", "234 ok"),
    ("0F 0002 0008", "239 refused 1"),
    ("0F 0002 0003", "244 refused 1"),
    ("09 0004 0000 0004", "249 ok"),
    ("0F 0002 0000", "256 ok o1 o2 o7 end"),
    // A walk numbers nothing.
    ("01 0002 00 00", "261 ok o10"),
];

#[test]
fn a_table_is_walked(rt: HostRuntime) -> Result<(), Fail> {
    replays(&rt, &TABLE_WALKS)
}
