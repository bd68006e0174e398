use al_words::{is_command, read_command};
use std::alloc::{AllocError, Global};
use std::test::*;

/// Words, and what they say: `usage` where they are no command, `none` where a number is not in its
/// form or its bounds, and otherwise the line.
const CASES: &str = "session g | Session { genesis: \"g\" }\n\
session  | Session { genesis: \"\" }\n\
session g h | usage\n\
session -g | usage\n\
Session g | usage\n\
help session | usage\n\
serve g 0 | none\n\
serve g 1 | Serve { genesis: \"g\", port: 1 }\n\
serve g 65535 | Serve { genesis: \"g\", port: 65535 }\n\
serve g 65536 | none\n\
serve g 080 | none\n\
generate 7 0 | none\n\
generate 0 1 | Generate { number: 0, blocks: 1 }\n\
generate 18446744073709551615 100000 | Generate { number: 18446744073709551615, blocks: 100000 }\n\
generate 18446744073709551616 1 | none\n\
generate 7 100001 | none\n\
generate +7 1 | none\n\
catchpoint g b | usage\n\
catchpoint g b 0 | Catchpoint { genesis: \"g\", blocks: \"b\", round: 0 }\n\
catchpoint g b 4611686018427387904 | Catchpoint { genesis: \"g\", blocks: \"b\", round: 4611686018427387904 }\n\
catchpoint g b 4611686018427387905 | none\n\
catchup g l | Catchup { genesis: \"g\", label: \"l\" }\n\
label 0 | Label { round: 0 }\n\
label 4611686018427387904 | Label { round: 4611686018427387904 }\n\
label 4611686018427387905 | none";

// The words of a text, with a space between two.
fn words_of<'a>(alloc: Global, text: &'a str) -> Result<Vec<&'a str>, AllocError> {
    let mut words = Vec::new(alloc);
    for word in text.split(' ') {
        words.push(word)?;
    }
    Ok(words)
}

// What the words say, as the table has it.
fn said<'a>(alloc: Global, words: &'a [&'a str]) -> Result<String, AllocError> {
    match read_command(alloc, words)? {
        Some(line) => format!(in alloc; "{line:?}"),
        None if is_command(alloc, words)? => format!(in alloc; "none"),
        None => format!(in alloc; "usage"),
    }
}

#[test]
fn words(rt: HostRuntime) -> Result<(), Fail> {
    let alloc = rt.alloc();
    for case in CASES.lines() {
        let (text, wanted) = case.split_once(" | ").ok_or("a line of the table")?;
        let words = words_of(alloc, text)?;
        let said = said(alloc, words.as_slice())?;
        assert_eq!(rt; said.as_str(), wanted, "{text}");
    }
    Ok(())
}
