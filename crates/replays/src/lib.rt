// Runs any list of calls on a new reader, and answers the log, which is a history of exactly these calls.
#![tactic(auto)]

mod log;
mod replaying;

pub use log::{Ask, Reply};
pub use replaying::replay;

#[cfg(test)]
mod tests {
    use crate::{Ask, Reply, replay};
    use std::test::Fail;
    use templates::TemplateBook;

    // A template is added, a text that fits it is read and read again as a token, which works nothing out, and the template is
    // deleted once but not twice.
    #[test]
    fn replays_every_call(rt: HostRuntime) -> Result<(), Fail> {
        let alloc = rt.alloc();
        let mut asks = Vec::new(alloc);
        asks.push(Ask::Add {
            rule: 3,
            kind: 7,
            bytes: Vec::from_slice(alloc, b"k##")?,
        })?;
        asks.push(Ask::Read(Vec::from_slice(alloc, b"k42")?))?;
        asks.push(Ask::Token {
            text: Vec::from_slice(alloc, b"k42")?,
            place: 0,
        })?;
        asks.push(Ask::Delete(3))?;
        asks.push(Ask::Delete(3))?;
        let log = replay(alloc, TemplateBook::new(), 1, asks)?;
        assert_eq!(rt; log.len(), 5);
        assert!(rt; matches!(log[0], Reply::Changed(Ok(2))));
        assert!(rt; matches!(log[1], Reply::Read(a) if a.rules.holds(3) && a.count == 3));
        assert!(rt; matches!(log[2], Reply::Token(Ok(t)) if t.length == 3 && t.count == 0));
        assert!(rt; matches!(log[3], Reply::Changed(Ok(3))));
        assert!(rt; matches!(log[4], Reply::Changed(Err(_))));
        Ok(())
    }
}
