//! Rows of `craig_words`: words of a command line, with what they set.

use craig_script::{FormatWord, SystemWord};
use craig_words::{Words, WordsFault, read_words};
use std::alloc::{AllocError, Global};
use std::test::Fail;

/// Words that set something.
#[derive(Clone, Copy)]
struct Row {
    /// The words, without the program's name.
    words: &'static [&'static str],
    /// What they set.
    sets: Words,
}

/// Where nothing is said.
const NOTHING: Words = Words {
    system: None,
    format: None,
    limit: None,
    steps: None,
};

/// Words that are read.
const READ: [Row; 6] = [
    Row {
        words: &[],
        sets: NOTHING,
    },
    Row {
        words: &["--gen=1"],
        sets: Words {
            steps: Some(1),
            ..NOTHING
        },
    },
    Row {
        words: &["--gen", "1"],
        sets: Words {
            steps: Some(1),
            ..NOTHING
        },
    },
    Row {
        words: &["--limit", "none"],
        sets: Words {
            limit: Some(None),
            ..NOTHING
        },
    },
    Row {
        words: &["--limit=100000"],
        sets: Words {
            limit: Some(Some(100000)),
            ..NOTHING
        },
    },
    Row {
        words: &[
            "--gen=60",
            "--format",
            "cnf",
            "--limit=1",
            "--system",
            "pudlak",
        ],
        sets: Words {
            system: Some(SystemWord::Pudlak),
            format: Some(FormatWord::Cnf),
            limit: Some(Some(1)),
            steps: Some(60),
        },
    },
];

/// Words that are refused.
const REFUSED: [&[&str]; 20] = [
    &["--wrong"],
    &["--wrong=1"],
    &["--limit", "0"],
    &["--limit", "100001"],
    &["--gen", "0"],
    &["--gen", "61"],
    &["--gen", "01"],
    &["--gen", "1", "--gen", "1"],
    &["--gen=1", "--gen=2"],
    &["--"],
    &["--gen=1", "--"],
    &["--help"],
    &["-h"],
    &["--version"],
    &["gen", "1"],
    &["--system"],
    &["--system="],
    &["--system", "--gen=1"],
    &["--format", "-"],
    &["--limit", "1000000000000000000"],
];

/// The words in memory.
fn strings(alloc: Global, row: &[&str]) -> Result<Vec<String>, AllocError> {
    let mut words = Vec::new(alloc);
    for word in row {
        words.push(String::from_str(alloc, word)?)?;
    }
    Ok(words)
}

#[test]
fn options_set_what_their_values_say(rt: HostRuntime) -> Result<(), Fail> {
    for row in &READ {
        let words = strings(rt.alloc(), row.words)?;
        let is_read = match read_words(rt.alloc(), &words) {
            Ok(sets) => sets == row.sets,
            Err(_) => false,
        };
        assert!(rt; is_read);
    }
    Ok(())
}

#[test]
fn other_words_are_refused(rt: HostRuntime) -> Result<(), Fail> {
    for row in &REFUSED {
        let words = strings(rt.alloc(), row)?;
        let is_refused = matches!(read_words(rt.alloc(), &words), Err(WordsFault::Refused));
        assert!(rt; is_refused);
    }
    Ok(())
}
