//! A use of `plant_file`: a text is read, and another one is refused.

use plant_file::{PlantFile, read_text};
use std::alloc::{AllocError, Global};

const STUDIO: &str = r#"
title = "Studio"
[[level]]
matrix = 0
level = 0
sources = 3
destinations = 2
source_names = ["BLACK", "CAM 1"]
[[panel]]
device = 1
port = 9001
"#;

// Whether it has the title and the names of the text, where the last source has no name.
fn is_the_studio(file: &PlantFile) -> bool {
    let [level] = file.levels() else {
        return false;
    };
    for (name, want) in level.source_names().iter().zip(["BLACK", "CAM 1", "S2"]) {
        if name.as_bytes() != want.as_bytes() {
            return false;
        }
    }
    file.title().as_str() == "Studio"
}

// The line of a text's fault, which is empty where there is none.
fn line_of(alloc: Global, text: &[u8]) -> Result<String, AllocError> {
    match read_text(alloc, text) {
        Ok(_) => Ok(String::new(alloc)),
        Err(fault) => fault.text(alloc),
    }
}

#[test]
fn a_text_is_read_and_another_one_refused(rt: HostRuntime) -> Result<(), AllocError> {
    assert!(rt;
        matches!(&read_text(rt.alloc(), STUDIO.as_bytes()), Ok(file) if is_the_studio(file))
    );

    let line = line_of(rt.alloc(), b"title = \"Studio\"\nlevel = 1")?;
    assert!(rt; line.as_str() == "WrongType at level 0 entries");
    Ok(())
}
