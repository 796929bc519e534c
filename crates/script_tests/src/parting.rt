//! A text and its lines.
use script::Lines;

#[test]
fn parts_lines(rt: HostRuntime) {
    let mut lines = Lines::new(b"mark\n\nanswer\n");
    assert_eq!(rt; lines.next(), Some(b"mark".as_slice()));
    assert_eq!(rt; lines.next(), Some(b"".as_slice()));
    assert_eq!(rt; lines.next(), Some(b"answer".as_slice()));
    assert_eq!(rt; lines.next(), None);
    let mut lines = Lines::new(b"mark");
    assert_eq!(rt; lines.next(), Some(b"mark".as_slice()));
}

#[test]
fn skips_lines(rt: HostRuntime) {
    assert_eq!(rt;
        Lines::new(b"mark\n\nanswer\n").nth(2),
        Some(b"answer".as_slice())
    );
}
