//! A use of `line_text`: two texts are joined, and what their lines have is read and written.

use line_text::{MAX_DIGITS, append_decimal, append_hex, join_lines, read_decimal, split_line};
use std::alloc::{AllocError, Global};
use std::test::Fail;

// Two texts, of which the first lacks the LF of its last line.
fn joined(alloc: Global) -> Result<Vec<u8>, AllocError> {
    let mut text = Vec::from_slice(alloc, b"7\n0012")?;
    join_lines(&mut text, Vec::from_slice(alloc, b"none\n")?)?;
    Ok(text)
}

#[test]
fn lines_are_joined_and_read(rt: HostRuntime) -> Result<(), Fail> {
    let text = joined(rt.alloc())?;
    assert!(rt; text.as_slice() == b"7\n0012\nnone\n".as_slice());

    let mut rest = text.as_slice();
    for wanted in &[Some(7), Some(12), None] {
        assert!(rt; !rest.is_empty());
        let (line, behind) = split_line(rest);
        // A number is read from at most 19 digits.
        assert!(rt; line.len() <= 19 && read_decimal(line) == *wanted);
        rest = behind;
    }
    assert!(rt; rest.is_empty());
    Ok(())
}

#[test]
fn a_line_is_written(rt: HostRuntime) -> Result<(), Fail> {
    let mut line = Vec::with_capacity(rt.alloc(), MAX_DIGITS + 2 * 4)?;
    append_decimal(12, &mut line);
    append_hex(b"none", &mut line);
    assert!(rt; line.as_slice() == b"126E6F6E65".as_slice());
    Ok(())
}
