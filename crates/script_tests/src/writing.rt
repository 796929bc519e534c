//! The words of a line, written again.
use script::write_words;
use std::test::Fail;

#[test]
fn writes_words(rt: HostRuntime) -> Result<(), Fail> {
    let heap = rt.alloc();
    let lines: [(&[u8], &[u8]); 4] = [
        (b"\tplace 01  1\r# first", b"place 01 1"),
        (b"keep#", b"keep"),
        (b"\xff \t 1_0 ", b"\xff 1_0"),
        (b" # place 1 1", b""),
    ];
    for (line, words) in lines {
        let mut written = Vec::new(heap);
        write_words(&mut written, line)?;
        assert_eq!(rt; written.as_slice(), words);
    }
    Ok(())
}
