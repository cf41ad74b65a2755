use std::test::Fail;
use up_line::Line;

#[test]
fn a_line_keeps_what_finds_room_and_counts_all(rt: HostRuntime) -> Result<(), Fail> {
    let mut line = Line::with_room(rt.alloc(), 4)?;
    line.put(b"abc");
    line.put(b"def");
    assert_eq!(rt; line.bytes(), b"abcd".as_slice());
    assert_eq!(rt; line.count(), Some(6));
    line.clear();
    line.put(b"xyz");
    assert_eq!(rt; line.into_bytes().as_slice(), b"xyz".as_slice());
    Ok(())
}
