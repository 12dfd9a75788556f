// Records taken off a batch.
ghost use Rattle.batches.specs.Records.{Begins, Behind, BeginsSized};

use crate::record::Record;

// Takes the first record off a batch: the record, and what is behind it. None where no whole record stands there.
pub(crate) fn first<'b>(batch: &'b [u8]) -> Option<(Record<'b>, &'b [u8])>
    ensures { Begins batch.now result }
{
    let (letter, behind) = batch.split_first()?;
    match *letter {
        b'A' => add(behind),
        b'D' => delete(behind),
        b'L' => line(behind),
        _ => None,
    }
}

fn add<'b>(behind: &'b [u8]) -> Option<(Record<'b>, &'b [u8])>
    ensures { Behind 65 behind.now result }
{
    let [rule, high, low, behind @ ..] = behind else {
        return None;
    };
    let (commands, rest) = sized(behind)?;
    let kind = u16::from_be_bytes([*high, *low]);
    Some((
        Record::Add {
            rule: *rule,
            kind,
            commands,
        },
        rest,
    ))
}

fn delete<'b>(behind: &'b [u8]) -> Option<(Record<'b>, &'b [u8])>
    ensures { Behind 68 behind.now result }
{
    let (rule, rest) = behind.split_first()?;
    Some((Record::Delete(*rule), rest))
}

fn line<'b>(behind: &'b [u8]) -> Option<(Record<'b>, &'b [u8])>
    ensures { Behind 76 behind.now result }
{
    let (text, rest) = sized(behind)?;
    Some((Record::Line(text), rest))
}

// Bytes with their length in front, in two bytes.
fn sized<'b>(behind: &'b [u8]) -> Option<(&'b [u8], &'b [u8])>
    ensures { BeginsSized behind.now result }
{
    let [high, low, rest @ ..] = behind else {
        return None;
    };
    rest.split_at_checked(usize::from(u16::from_be_bytes([*high, *low])))
}
