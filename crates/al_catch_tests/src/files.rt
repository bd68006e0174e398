//! The names of a catchpoint's files.

use al_catch::CatchFile;
use std::test::*;

#[test]
fn names(rt: HostRuntime) -> Result<(), Fail> {
    let rows = [
        (CatchFile::Rows(0), "cp-640-rows-0"),
        (CatchFile::Rows(12), "cp-640-rows-12"),
        (CatchFile::Info, "cp-640-info"),
        (CatchFile::Block(639), "cp-640-block-639"),
        (CatchFile::Label, "cp-640-label"),
    ];
    for (file, name) in rows {
        assert!(rt; file.name(rt.alloc(), 640)?.as_str() == name);
    }
    Ok(())
}
