// Classes of pattern texts, as lists of 256 flags.
use crate::second::commands::Fault;
use std::alloc::{AllocError, Global};

// A byte of a class, where it begins, and whether it stands without a '\'.
#[derive(Clone, Copy)]
pub(crate) struct Member {
    pub(crate) byte: u8,
    pub(crate) place: usize,
    pub(crate) bare: bool,
}

// A class: for each byte whether it is in it, and where the text goes on behind the ']'.
#[derive(Drop)]
pub(crate) struct Class {
    pub(crate) flags: Vec<bool>,
    pub(crate) behind: usize,
}

// The class whose '[' has this place.
pub(crate) fn class_at(
    heap: Global,
    text: &[u8],
    open: usize,
) -> Result<Result<Class, Fault>, AllocError> {
    let start = open.saturating_add(1);
    let (members, close) = match members(heap, text, start)? {
        Ok(found) => found,
        Err(lone) => return Ok(Err(Fault {
            number: 18,
            place: lone,
        })),
    };
    let Some(close) = close else {
        return Ok(Err(Fault {
            number: 19,
            place: open,
        }));
    };
    let others = members
        .first()
        .is_some_and(|first| first.bare && first.byte == b'^');
    let own = members.get(usize::from(others)..).unwrap_or(&[]);
    let mut flags = vec![in heap; false; 256]?;
    if let Some(left) = put_members(&mut flags, own) {
        return Ok(Err(Fault {
            number: 20,
            place: left,
        }));
    }
    for flag in flags.iter_mut() {
        *flag = *flag != others;
    }
    if !flags.contains(&true) {
        return Ok(Err(Fault {
            number: 21,
            place: open,
        }));
    }
    let behind = close.saturating_add(1);
    Ok(Ok(Class { flags, behind }))
}

// The members from a place on, and where the ']' stands, if there is one; or the place of a '\' with no byte behind it.
fn members(
    heap: Global,
    text: &[u8],
    start: usize,
) -> Result<Result<(Vec<Member>, Option<usize>), usize>, AllocError> {
    let mut found = Vec::new(heap);
    let mut next = start;
    for (place, byte) in text.iter().enumerate() {
        if place < next {
            continue;
        }
        let mut member = Member {
            byte: *byte,
            place,
            bare: true,
        };
        next = place.saturating_add(1);
        if *byte == b']' {
            return Ok(Ok((found, Some(place))));
        }
        if *byte == b'\\' {
            let Some(escaped) = text.get(next) else {
                return Ok(Err(place));
            };
            member = Member {
                byte: *escaped,
                place,
                bare: false,
            };
            next = place.saturating_add(2);
        }
        found.push(member)?;
    }
    Ok(Ok((found, None)))
}

// Sets the flags of the members and ranges; or answers the place of the left member of the first range that falls.
fn put_members(flags: &mut Vec<bool>, members: &[Member]) -> Option<usize> {
    let mut next = 0;
    for (at, left) in members.iter().enumerate() {
        if at < next {
            continue;
        }
        let right = match (
            members.get(at.saturating_add(1)),
            members.get(at.saturating_add(2)),
        ) {
            (Some(dash), Some(right)) if dash.bare && dash.byte == b'-' => {
                next = at.saturating_add(3);
                right.byte
            }
            _ => left.byte,
        };
        if right < left.byte {
            return Some(left.place);
        }
        for byte in left.byte..=right {
            put(flags, byte);
        }
    }
    None
}

fn put(flags: &mut Vec<bool>, byte: u8) {
    if let Some(flag) = flags.get_mut(usize::from(byte)) {
        *flag = true;
    }
}

// The runs of bytes with a flag, by their first and last byte.
pub(crate) fn runs(heap: Global, flags: &[bool]) -> Result<Vec<(u8, u8)>, AllocError> {
    let mut runs: Vec<(u8, u8)> = Vec::new(heap);
    for byte in 0..=255u8 {
        if flags.get(usize::from(byte)).copied() != Some(true) {
            continue;
        }
        match runs.last_mut() {
            Some((_, high)) if high.checked_add(1) == Some(byte) => *high = byte,
            _ => runs.push((byte, byte))?,
        }
    }
    Ok(runs)
}
