use crate::mark::{at_mark, without_mark};
use crate::refused_texts::{Frame, Row, TABLES};
use std::alloc::{AllocError, Global};
use std::process::Abort;
use up_check::{File, ReadError, read_problem};
use up_text::{Name, Place};
use up_tree::Problem;

/// What a row says of its text.
#[derive(Clone, Copy)]
struct Due<'a> {
    file: File,
    place: Option<Place>,
    word: &'a str,
    name: &'a str,
}

fn is_name(name: &Option<Name>, text: &str) -> bool {
    match name {
        None => text.is_empty(),
        Some(name) => name.bytes() == text.as_bytes(),
    }
}

fn is_due(outcome: &Result<Problem, ReadError>, due: Due<'_>) -> bool {
    match outcome {
        Ok(_) => due.word.is_empty(),
        Err(ReadError::Memory) => false,
        Err(
            ReadError::Refused {
                file,
                place,
                reason,
                name,
            },
        ) => {
            *file == due.file
                && due.place == Some(*place)
                && reason.word() == due.word
                && is_name(name, due.name)
        }
    }
}

// Whether the text reads beside the other as it is due, where the other one has no fault.
fn reads(alloc: Global, text: &[u8], other: &str, due: Due<'_>) -> bool {
    let outcome = match due.file {
        File::Domain => read_problem(alloc, text, other.as_bytes()),
        File::Problem => read_problem(alloc, other.as_bytes(), text),
    };
    let is_read = is_due(&outcome, due);
    drop(outcome);
    is_read
}

// Whether the row's text, in its frame and without its mark, reads as the row says.
fn holds(alloc: Global, frame: &Frame, row: Row) -> Result<bool, AllocError> {
    let (text, word, name) = row;
    let [first, second] = frame.before;
    let marked = format!(in alloc; "{first}{second}{text}{}", frame.after)?;
    let marked = marked.as_str().as_bytes();
    let due = Due {
        file: frame.gap,
        place: at_mark(marked).map(|mark| mark.place),
        word,
        name,
    };
    let text = without_mark(alloc, marked)?;
    Ok(reads(alloc, text.as_slice(), frame.other, due))
}

fn assert_rows(rt: &impl Abort, alloc: Global, frame: &Frame, rows: &[Row]) {
    for row in rows {
        assert!(rt; holds(alloc, frame, *row).unwrap_or(false), "{}", row.0);
    }
}

#[test]
fn first_faults(rt: HostRuntime) {
    for (frame, rows) in TABLES {
        assert_rows(&rt, rt.alloc(), &frame, rows);
    }
}

// Whether a text of this many open brackets is refused with the word at the last of them.
fn stops_at_last(alloc: Global, count: u32, word: &str) -> Result<bool, AllocError> {
    let text = vec![in alloc; b'('; count as usize]?;
    let due = Due {
        file: File::Domain,
        place: Some(Place {
            line: 1,
            column: count,
        }),
        word,
        name: "",
    };
    Ok(reads(alloc, text.as_slice(), "", due))
}

const DEPTHS: [(u32, &str); 2] = [(200, "unclosed"), (201, "too-deep")];

#[test]
fn brackets_are_too_deep_at_level_201(rt: HostRuntime) {
    for (count, word) in DEPTHS {
        assert!(rt;
            stops_at_last(rt.alloc(), count, word).unwrap_or(false),
            "{word}"
        );
    }
}
