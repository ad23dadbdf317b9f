use writing::{Line, Text};

#[test]
fn numbers_have_no_leading_zero(rt: HostRuntime) {
    let mut buffer = [b'.'; 13];
    assert!(rt; 0u32.put(&mut buffer, 0) == Some(1));
    assert!(rt; 10u32.put(&mut buffer, 1) == Some(3));
    assert!(rt; 4294967295u32.put(&mut buffer, 3) == Some(13));
    assert!(rt; &buffer == b"0104294967295");
}

#[test]
fn no_room_writes_nothing(rt: HostRuntime) {
    let mut buffer = [b'.'; 3];
    assert!(rt; 10u32.put(&mut buffer, 2).is_none());
    assert!(rt; b"".as_slice().put(&mut buffer, 4).is_none());
    assert!(rt; b"ab".as_slice().put(&mut buffer, usize::MAX).is_none());
    assert!(rt; &buffer == b"...");
}

#[test]
fn all_else_stays(rt: HostRuntime) {
    let mut buffer = [b'.'; 6];
    assert!(rt; b"ab".as_slice().put(&mut buffer, 1) == Some(3));
    assert!(rt; 42u32.put(&mut buffer, 3) == Some(5));
    assert!(rt; &buffer == b".ab42.");
}

#[test]
fn a_line_has_commas_and_a_line_feed(rt: HostRuntime) {
    let mut buffer = [b'.'; 12];
    let line = Line {
        word: b"ab",
        fields: &[0, 123],
    };
    assert!(rt; line.put(&mut buffer, 1) == Some(10));
    assert!(rt; &buffer == b".ab,0,123\n..");
    assert!(rt; line.put(&mut buffer, 4).is_none());
}
