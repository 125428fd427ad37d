// Which lines pass, and where lines end.
use crate::decode::decode;
use crate::first_line::{Line, first_line};
use crate::write_line::write_line;

#[test]
fn twenty_digits_pass(rt: HostRuntime) {
    assert!(rt; decode(b"0123456789ABCDEF0123").is_some());
    assert!(rt; decode(b"0123456789ABCDEF012345").is_none());
}

#[test]
fn malformed_lines(rt: HostRuntime) {
    assert!(rt; decode(b"").is_none());
    assert!(rt; decode(b"ABC").is_none());
    assert!(rt; decode(b"ab").is_none());
    assert!(rt; decode(b"AB\r").is_none());
    assert!(rt; decode(b"ABC\r").is_none());
}

#[test]
fn ends_of_lines(rt: HostRuntime) {
    assert_eq!(rt; first_line(b"AB\n"), Some(Line { length: 2, size: 3 }));
    assert_eq!(rt; first_line(b"AB"), Some(Line { length: 2, size: 2 }));
    assert_eq!(rt; first_line(b"\n"), Some(Line { length: 0, size: 1 }));
    assert_eq!(rt; first_line(b""), None);
}

#[test]
fn room_for_a_line(rt: HostRuntime) {
    let mut out = *b"....";
    assert_eq!(rt; write_line(&mut out, &[0x1F]), Some(3));
    assert_eq!(rt; out, *b"1F\n.");
    assert_eq!(rt; write_line(&mut out, &[0x1F, 0]), None);
    assert_eq!(rt; out, *b"1F\n.");
}
