//! A use of `command_words`: words are read over a table of one command.

use command_words::{Last, Line, Low, Part, read_waiting};
use std::alloc::{AllocError, Global};
use std::test::Fail;

const LINES: &[Line<u8>] = &[Line {
    verb: 1,
    name: "count",
    parts: &[Part::Number(Low::AtLeast(1), 16)],
    last: Last::NoMore,
    words: &["NUMBER"],
    is_quiet: false,
}];

#[test]
fn words_are_read(rt: HostRuntime) -> Result<(), Fail> {
    let alloc = rt.alloc();
    let asked = texts(alloc, &["count", "7"])?;
    assert_eq!(rt;
        read_waiting(LINES, &asked).map(|asked| asked.verb),
        Some(1)
    );
    let more = texts(alloc, &["count", "17"])?;
    assert_eq!(rt; read_waiting(LINES, &more).map(|asked| asked.verb), None);
    Ok(())
}

fn texts(alloc: Global, words: &[&str]) -> Result<Vec<String>, AllocError> {
    let mut texts = Vec::new(alloc);
    for word in words {
        texts.push(String::from_str(alloc, word)?)?;
    }
    Ok(texts)
}
