//! A use of `plant_rules`: a text whose entries keep the rules is read, and one with a port twice is refused.

use plant_rules::read;
use std::alloc::{AllocError, Global};

const STUDIO: &str = r#"
title = "Studio"
[[level]]
matrix = 0
level = 0
sources = 3
destinations = 2
[[panel]]
device = 1
port = 9001
"#;

// The line of a text's fault, or its title where it has none.
fn line_of(alloc: Global, text: &str) -> Result<String, AllocError> {
    match read(alloc, text.as_bytes()) {
        Ok(file) => String::from_str(alloc, file.title().as_str()),
        Err(fault) => fault.text(alloc),
    }
}

// Whether a text has this line.
fn has_line(alloc: Global, text: &str, line: &str) -> Result<bool, AllocError> {
    Ok(line_of(alloc, text)?.as_str() == line)
}

#[test]
fn a_port_twice_is_refused(rt: HostRuntime) -> Result<(), AllocError> {
    assert!(rt; has_line(rt.alloc(), STUDIO, "Studio") == Ok(true));

    let two = "[[panel]]\ndevice = 2\nport = 9001\n[[panel]]";
    let text = STUDIO.replace(rt.alloc(), "[[panel]]", two)?;
    assert!(rt; has_line(rt.alloc(), &text, "Twice at panel 1 port") == Ok(true));
    Ok(())
}
