// Scripts that link and unlink nodes. Each field stands beside the line that it prints, which was worked out by hand: the place
// is the sum of the lengths before it, 3 bytes more than each value, and the reason for an answer stands beside it.
// Row 1 and, where a field unlinks, row 19 stand with the fields that erase nodes and that put symbols into tables.
use hexadecimal::decode;
use script::{Session, read_line};
use std::process::Abort;
use std::test::Fail;

// Runs a script in a fresh session: each field, in hexadecimal, prints the line beside it.
pub(crate) fn replays(
    rt: &(impl Abort + AllocGlobal),
    fields: &[(&'static str, &'static str)],
) -> Result<(), Fail> {
    let mut script = Vec::new(rt.alloc());
    for (field, _) in fields {
        assert!(rt; decode(field.as_bytes(), &mut script).is_ok());
    }
    let mut session = Session::new(rt.alloc())?;
    let mut out = [0u8; 8192];
    let mut place = 0usize;
    for (_, text) in fields {
        let line = read_line(&mut session, script.as_slice(), place, &mut out);
        assert_eq!(rt; line.length(), text.len() + 1);
        assert!(rt; out.starts_with(text.as_bytes()));
        assert_eq!(rt; out.get(text.len()).copied(), Some(b'\n'));
        place = line.next(place);
    }
    assert_eq!(rt; place, script.len());
    Ok(())
}

#[test]
fn nodes_are_made_and_linked(rt: HostRuntime) -> Result<(), Fail> {
    replays(
        &rt,
        &[
            ("01 0002 01 01", "0 ok o0 r0 b0"),
            ("01 0005 02 01 70 75 74", "5 ok o1 r1"),
            ("02 0000", "13 ok b1"),
            ("04 0005 01 0001 0001", "16 ok"),
            ("01 0002 04 00", "24 ok o2"),
            ("03 0005 01 0002 0000", "29 ok"),
        ],
    )
}

// Every how, and every row that can fit.
const EVERY_ROW: [(&'static str, &'static str); 62] = [
    // A table, a symbol, four blocks and four operations, of which the last has a region.
    ("01 0002 01 01", "0 ok o0 r0 b0"),
    ("01 0005 02 01 70 75 74", "5 ok o1 r1"),
    ("02 0000", "13 ok b1"),
    ("02 0000", "16 ok b2"),
    ("02 0000", "19 ok b3"),
    ("02 0000", "22 ok b4"),
    ("01 0002 00 00", "25 ok o2"),
    ("01 0002 00 00", "30 ok o3"),
    ("01 0002 00 00", "35 ok o4"),
    ("01 0002 00 01", "40 ok o5 r2"),
    // Blocks of r1: b1; b2 b1; b2 b3 b1; b2 b3 b1 b4.
    ("04 0005 01 0001 0001", "45 ok"),
    ("04 0005 00 0002 0001", "53 ok"),
    ("04 0005 02 0003 0001", "61 ok"),
    ("04 0005 03 0004 0001", "69 ok"),
    // Operations of b1: o2; o2 o3; o2 o4 o3; o2 o5 o4 o3.
    ("03 0005 00 0002 0001", "77 ok"),
    ("03 0005 01 0003 0001", "85 ok"),
    ("03 0005 02 0004 0003", "93 ok"),
    ("03 0005 03 0005 0002", "101 ok"),
    // A byte too few, a byte too many, and a how past 03.
    ("03 0004 00 0002 00", "109 refused 23"),
    ("03 0006 00 0002 0001 00", "116 refused 23"),
    ("03 0005 04 0002 0001", "125 refused 23"),
    // No o6; no b5, though there is an o5; no o6 as a mark.
    ("03 0005 00 0006 0001", "133 refused 24"),
    ("03 0005 00 0001 0005", "141 refused 24"),
    ("03 0005 02 0001 0006", "149 refused 24"),
    // o2 stands in b1.
    ("03 0005 01 0002 0002", "157 refused 14"),
    // o0 stands in no block.
    ("03 0005 03 0001 0000", "165 refused 15"),
    // Neither does o1.
    ("05 0002 0001", "173 refused 16"),
    // b1, with o2 in it, stands in r1, which is o1's.
    ("03 0005 00 0001 0001", "178 refused 18"),
    ("03 0005 02 0001 0002", "186 refused 18"),
    // o1 is its own mark, which stands in no block: 15 is above 18.
    ("03 0005 02 0001 0001", "194 refused 15"),
    // b0 is the body of a table, and o1 a symbol.
    ("03 0005 01 0001 0000", "202 refused 19"),
    // A terminator that is no symbol may stand there; o1 beside it would stand there too.
    ("01 0002 04 00", "210 ok o6"),
    ("03 0005 00 0006 0000", "215 ok"),
    ("03 0005 03 0001 0006", "223 refused 19"),
    // A byte too few, a byte too many, and no o7.
    ("05 0001 00", "231 refused 23"),
    ("05 0003 0002 00", "235 refused 23"),
    ("05 0002 0007", "241 refused 24"),
    // o2 leaves b1, and is then in no block, and can be linked again.
    ("05 0002 0002", "246 ok"),
    ("05 0002 0002", "251 refused 16"),
    ("03 0005 01 0002 0004", "256 ok"),
    // Two bytes too few, and a how past 03.
    ("04 0003 00 0001", "264 refused 23"),
    ("04 0005 ff 0001 0001", "270 refused 23"),
    // No b5; no r3, though there is a b3; no b5 as a mark.
    ("04 0005 00 0005 0001", "278 refused 24"),
    ("04 0005 01 0001 0003", "286 refused 24"),
    ("04 0005 03 0001 0005", "294 refused 24"),
    // b1 stands in r1.
    ("04 0005 01 0001 0002", "302 refused 14"),
    // Neither b5 nor b6 stands in a region.
    ("02 0000", "310 ok b5"),
    ("02 0000", "313 ok b6"),
    ("04 0005 02 0005 0006", "316 refused 15"),
    ("06 0002 0005", "324 refused 16"),
    // r0 is a table's region, and b0 stands there.
    ("04 0005 00 0005 0000", "329 refused 17"),
    ("04 0005 03 0005 0000", "337 refused 17"),
    ("06 0002 0000", "345 refused 17"),
    // b1 leaves r1. In it stands o5, whose region is r2; then b5 stands in r2.
    ("06 0002 0001", "350 ok"),
    ("04 0005 00 0001 0002", "355 refused 18"),
    ("04 0005 01 0005 0002", "363 ok"),
    ("04 0005 03 0001 0005", "371 refused 18"),
    // Two bytes too few, and no b7.
    ("06 0000", "379 refused 23"),
    ("06 0002 0007", "382 refused 24"),
    // b4 still stands in r1.
    ("04 0005 02 0001 0004", "387 ok"),
    // The high byte comes first: this is 768, and not 3.
    ("05 0002 0300", "395 refused 24"),
    // No node got a number from these fields.
    ("02 0000", "400 ok b7"),
];

#[test]
fn every_how_and_every_row(rt: HostRuntime) -> Result<(), Fail> {
    replays(&rt, &EVERY_ROW)
}

// Fields for which several rows fit.
const SEVERAL_ROWS: [(&'static str, &'static str); 24] = [
    // From the outside in: the symbol o1, r1, b1, the table o0, r0, b0. b2 stands nowhere.
    ("01 0002 01 01", "0 ok o0 r0 b0"),
    ("01 0005 02 01 70 75 74", "5 ok o1 r1"),
    ("02 0000", "13 ok b1"),
    ("02 0000", "16 ok b2"),
    ("04 0005 00 0001 0001", "19 ok"),
    ("03 0005 00 0000 0001", "27 ok"),
    // 18 and 19: b0 lies inside o1, and is a table's body.
    ("03 0005 00 0001 0000", "35 refused 18"),
    // 15 and 18: the mark is o1 itself, and stands nowhere.
    ("03 0005 02 0001 0001", "43 refused 15"),
    // 14 and 18: o0 stands in b1, and b0 lies inside it.
    ("03 0005 01 0000 0000", "51 refused 14"),
    // 14 and 15: the mark o1 stands nowhere.
    ("03 0005 03 0000 0001", "59 refused 14"),
    // 24 and 14: no b9.
    ("03 0005 00 0000 0009", "67 refused 24"),
    // 23 and 24: no how 04, and no o9.
    ("03 0005 04 0009 0009", "75 refused 23"),
    // 14, 18 and 19, once o1 stands in b2.
    ("03 0005 00 0001 0002", "83 ok"),
    ("03 0005 00 0001 0000", "91 refused 14"),
    // 14, 17 and 18: b1 stands in r1; r0 is the region of a table that stands in b1.
    ("04 0005 00 0001 0000", "99 refused 14"),
    // 14 and 15: the mark b2 stands nowhere.
    ("04 0005 02 0001 0002", "107 refused 14"),
    // 17 and 18, once b1 stands nowhere: in r0 at the front, and beside b0, which stands there.
    ("06 0002 0001", "115 ok"),
    ("04 0005 00 0001 0000", "120 refused 17"),
    ("04 0005 03 0001 0000", "128 refused 17"),
    // 15 and 18: the mark is b1 itself.
    ("04 0005 02 0001 0001", "136 refused 15"),
    // 24 and 14: no r9, and b0 stands in r0.
    ("04 0005 00 0000 0009", "144 refused 24"),
    // 23 and 24: a byte too few and no b9; a byte too many and no o9; a byte too few, and no b9.
    ("04 0004 00 0009 00", "152 refused 23"),
    ("05 0003 0009 00", "159 refused 23"),
    ("06 0001 09", "165 refused 23"),
];

#[test]
fn the_upper_row_is_given(rt: HostRuntime) -> Result<(), Fail> {
    replays(&rt, &SEVERAL_ROWS)
}
