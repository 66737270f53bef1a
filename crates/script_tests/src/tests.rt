// The line call as a caller sees it.
use result::Refusal;
use script::{Line, Session, read_line};
use std::process::Abort;
use std::test::Fail;

// Runs the field at a place in a fresh session: the line is printed, what lies beyond it stays, and the next place follows.
fn prints(
    rt: &(impl Abort + AllocGlobal),
    script: &[u8],
    place: usize,
    text: &[u8],
    next: usize,
) -> Result<(), Fail> {
    let mut session = Session::new(rt.alloc())?;
    let mut out = [b'~'; 8192];
    let line = read_line(&mut session, script, place, &mut out);
    assert_eq!(rt; line.length(), text.len());
    assert_eq!(rt; line.next(place), next);
    assert!(rt; out.starts_with(text));
    assert!(rt; out.iter().skip(text.len()).all(|byte| *byte == b'~'));
    Ok(())
}

#[test]
fn a_making_line_shows_what_was_made(rt: HostRuntime) -> Result<(), Fail> {
    prints(&rt, b"\x01\x00\x02\x01\x01", 0, b"0 ok o0 r0 b0\n", 5)?;
    prints(&rt, b"~~\x01\x00\x05\x02\x02put", 2, b"2 ok o0 r0 r1\n", 10)?;
    prints(&rt, b"\x02\x00\x00\x02\x00\x00", 3, b"3 ok b0\n", 6)
}

#[test]
fn a_cut_field_goes_to_the_end(rt: HostRuntime) -> Result<(), Fail> {
    prints(&rt, b"\x01", 0, b"0 refused 21\n", 1)?;
    prints(&rt, b"\x01\x00", 0, b"0 refused 21\n", 2)?;
    prints(&rt, b"\x01\x00\x03\x01\x01", 0, b"0 refused 21\n", 5)
}

#[test]
fn a_refused_field_is_passed(rt: HostRuntime) -> Result<(), Fail> {
    prints(&rt, b"\x10\x00\x01~\x02\x00\x00", 0, b"0 refused 22\n", 4)?;
    prints(&rt, b"\x01\x00\x01\x01", 0, b"0 refused 23\n", 4)?;
    prints(&rt, b"\x02\x00\x01\x01", 0, b"0 refused 23\n", 4)?;
    prints(&rt, b"\x01\x00\x02\x08\x00", 0, b"0 refused 4\n", 5)
}

#[test]
fn nodes_are_numbered_as_they_are_made(rt: HostRuntime) -> Result<(), Fail> {
    let mut session = Session::new(rt.alloc())?;
    let mut out = [0u8; 8192];
    let script = b"\x01\x00\x02\x01\x01\x01\x00\x02\x08\x00\x01\x00\x02\x04\x02";
    let _ = read_line(&mut session, script, 0, &mut out);
    let _ = read_line(&mut session, script, 5, &mut out);
    assert!(rt; out.starts_with(b"5 refused 4\n"));
    let _ = read_line(&mut session, script, 10, &mut out);
    assert!(rt; out.starts_with(b"10 ok o1 r1 r2\n"));
    Ok(())
}

// Runs one field over and over.
fn run_512_times(session: &mut Session, field: &[u8], out: &mut [u8]) {
    for _ in 0..512 {
        let _ = read_line(session, field, 0, out);
    }
}

#[test]
fn numbers_end_at_511_where_the_shape_is_allowed(rt: HostRuntime) -> Result<(), Fail> {
    let mut session = Session::new(rt.alloc())?;
    let mut out = [0u8; 8192];
    run_512_times(&mut session, b"\x01\x00\x02\x00\x00", &mut out);
    assert!(rt; out.starts_with(b"0 ok o511\n"));
    let _ = read_line(&mut session, b"\x01\x00\x02\x00\x00", 0, &mut out);
    assert!(rt; out.starts_with(b"0 refused 25\n"));
    let _ = read_line(&mut session, b"\x01\x00\x02\x08\x00", 0, &mut out);
    assert!(rt; out.starts_with(b"0 refused 4\n"));
    Ok(())
}

// Runs the field at a place: it is refused, nothing is printed, and the place stays.
fn out_of_bounds(
    rt: &(impl Abort + AllocGlobal),
    script: &[u8],
    place: usize,
    out: &mut [u8],
) -> Result<(), Fail> {
    let mut session = Session::new(rt.alloc())?;
    let line = read_line(&mut session, script, place, out);
    assert_eq!(rt; line.refusal(), Some(Refusal::Bounds));
    assert_eq!(rt; line.length(), 0);
    assert_eq!(rt; line.next(place), place);
    assert!(rt; out.starts_with(b"~~"));
    Ok(())
}

#[test]
fn out_of_bounds_prints_nothing(rt: HostRuntime) -> Result<(), Fail> {
    out_of_bounds(&rt, &[0u8; 4097], 0, &mut [b'~'; 8192])?;
    out_of_bounds(&rt, b"\x02\x00\x00", 4, &mut [b'~'; 8192])?;
    out_of_bounds(&rt, b"\x02\x00\x00", 0, &mut [b'~'; 8191])?;
    out_of_bounds(&rt, b"", 0, &mut [b'~'; 8191])
}

#[test]
fn the_end_prints_nothing(rt: HostRuntime) -> Result<(), Fail> {
    let mut session = Session::new(rt.alloc())?;
    let mut out = [b'~'; 8192];
    let line = read_line(&mut session, b"\x02\x00\x00", 3, &mut out);
    assert_eq!(rt; line, Line::End);
    assert!(rt; out.starts_with(b"~~"));
    Ok(())
}
