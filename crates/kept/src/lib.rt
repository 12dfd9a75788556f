// The table of the steps that a reader keeps.
#![tactic(auto)]

mod kept;

pub use kept::Kept;

#[cfg(test)]
mod tests {
    use crate::Kept;
    use states::State;
    use std::test::Fail;

    // A step is found by its state and code, the first one stays, and those that hold a dropped position go.
    #[test]
    fn keeps_finds_and_drops(rt: HostRuntime) -> Result<(), Fail> {
        let a = State::single(3).with(200);
        let b = State::single(4);
        let mut t = Kept::new(rt.alloc())?;
        t.keep(a, 65, b);
        t.keep(b, 65, a);
        t.keep(a, 65, a);
        assert_eq!(rt; t.len(), 2);
        assert!(rt; t.find(a, 65).unwrap_or(a) == b);
        assert!(rt; t.find(a, 66).is_none());
        t.drop_touching(State::single(200));
        assert_eq!(rt; t.len(), 1);
        assert!(rt; t.find(a, 65).is_none());
        assert!(rt; t.find(b, 65).unwrap_or(b) == a);
        Ok(())
    }

    #[test]
    fn keeps_at_most_512(rt: HostRuntime) -> Result<(), Fail> {
        let mut t = Kept::new(rt.alloc())?;
        for code in 0..513u16 {
            t.keep(State::empty(), code, State::single(0));
        }
        assert_eq!(rt; t.len(), 512);
        assert!(rt; t.find(State::empty(), 511).is_some());
        assert!(rt; t.find(State::empty(), 512).is_none());
        Ok(())
    }
}
