// Expressions as runs of commands.
#![tactic(auto)]

mod code_range;
mod command;
mod decoding;

pub use code_range::CodeRange;
pub use command::Command;
pub use decoding::{MOST, check, step};

#[cfg(test)]
mod tests {
    use crate::check;
    use books::BookFault;

    // How many symbols a run over bytes has; or the number of the question that gets a no, and the place.
    fn told(bytes: &[u8]) -> Result<usize, (u8, usize)> {
        check(bytes, 255).map_err(|fault| {
            let told = BookFault::Command(fault).tell();
            (told.number, told.place)
        })
    }

    #[test]
    fn counts_symbols(rt: HostRuntime) {
        assert_eq!(rt; told(b"E"), Ok(0));
        assert_eq!(rt; told(b"C\x00kR\x000\x009PJ"), Ok(2));
        assert_eq!(rt; told(b"C\x00aC\x00bSA"), Ok(2));
    }

    #[test]
    fn first_no_decides(rt: HostRuntime) {
        assert_eq!(rt; told(b"C\x00ax"), Err((6, 3)));
        assert_eq!(rt; told(b"EC\x00"), Err((7, 1)));
        assert_eq!(rt; told(b"R\x00b\x00a"), Err((8, 0)));
        assert_eq!(rt; told(b"C\x01\x00"), Err((8, 0)));
        assert_eq!(rt; told(b"C\x00aJ"), Err((9, 3)));
        assert_eq!(rt; told(b""), Err((11, 0)));
        assert_eq!(rt; told(b"EE"), Err((11, 2)));
    }

    #[test]
    fn forty_may_wait(rt: HostRuntime) {
        assert_eq!(rt; told(&[b'E'; 40]), Err((11, 40)));
        assert_eq!(rt; told(&[b'E'; 41]), Err((10, 40)));
    }
}
