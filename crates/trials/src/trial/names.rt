// What is tried, and what is compared, by name.

// A kind of book that is tried.
#[derive(Clone, Copy)]
pub(crate) enum Subject {
    Bytes,
    Events,
    Templates,
    Numbers,
    Patterns,
}

pub(crate) const SUBJECTS: [&str; 5] = [
    "expressions over bytes",
    "expressions over events",
    "templates",
    "numbers",
    "pattern texts, as expressions over bytes",
];

// A kind of answer.
#[derive(Clone, Copy)]
pub(crate) enum Call {
    Add,
    Delete,
    Read,
    Token,
    Peek,
    Place,
    Last,
    Feed,
    Finish,
    Kind,
    Edition,
    Tally,
    Note,
    Event,
    Pattern,
    Buffer,
}

pub(crate) const CALLS: [&str; 16] = [
    "add", "delete", "read", "token", "peek", "place", "last", "feed", "finish", "kind", "edition",
    "tally", "note", "event", "pattern", "buffer",
];

impl Subject {
    pub(crate) fn name(self) -> &'static str {
        SUBJECTS.get(self as usize).copied().unwrap_or("")
    }

    // The last code of its symbols.
    pub(crate) fn last(self) -> u32 {
        match self {
            Subject::Events => 65535,
            _ => 255,
        }
    }
}

impl Call {
    pub(crate) fn name(self) -> &'static str {
        CALLS.get(self as usize).copied().unwrap_or("")
    }
}
