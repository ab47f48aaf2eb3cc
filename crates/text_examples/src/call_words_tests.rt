// What is read of calls of the program: no words, and empty ones.
use call_words::{Words, WordsFault, read_words};
use std::alloc::{AllocError, Global};

/// Calls of what is no command. In a text a space parts two words, which are those after the program's own name. So at
/// its front, at its end and before another space is an empty word.
static NO_COMMANDS: [&'static str; 10] = [
    "",
    " new",
    "new ",
    "new --rate ",
    "new --rate=1 ",
    "run ",
    "try ",
    "gen 7 400 ",
    "gen  2",
    "gen 1 ",
];

// What is read of the words of a call, after the name of the program.
fn read(alloc: Global, call: &str) -> Result<Result<Words, WordsFault>, AllocError> {
    let mut words = Vec::new(alloc);
    words.push(String::from_str(alloc, "studio")?)?;
    for word in call.split(' ') {
        words.push(String::from_str(alloc, word)?)?;
    }
    Ok(read_words(alloc, words.as_slice()))
}

// Whether the call is refused as one of no command.
fn is_usage(asked: &Result<Words, WordsFault>) -> bool {
    matches!(asked, Err(WordsFault::Usage))
}

// An empty word, not even the name of the program, and the name alone.
#[test]
fn no_words_and_empty_ones_are_refused(rt: HostRuntime) -> Result<(), AllocError> {
    for call in &NO_COMMANDS {
        let asked = read(rt.alloc(), call)?;
        assert!(rt; is_usage(&asked), "{call}");
    }
    assert!(rt; is_usage(&read_words(rt.alloc(), &[])));
    let name = [String::from_str(rt.alloc(), "studio")?];
    assert!(rt; is_usage(&read_words(rt.alloc(), &name)));
    Ok(())
}
