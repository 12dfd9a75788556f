// Sets of positions and sets of rule numbers, as machine words. Every contract speaks of members.
#![tactic(auto)]

mod iter;
mod set;
mod tables;

pub use iter::Iter;
pub use set::{Set, Width, Words};
pub use tables::follow;

// A set of positions from 0 to 255.
pub type State = Set<4>;

// A set of rule numbers from 0 to 63.
pub type Rules = Set<1>;

#[cfg(test)]
mod tests {
    use crate::{Rules, State};

    // The members of a state come out in rising order, over the words.
    #[test]
    fn members_rise(rt: HostRuntime) {
        let mut s = State::single(200).with(3).with(127).with(128);
        assert_eq!(rt; s.count(), 4);
        assert_eq!(rt; s.pop_lowest(), Some(3));
        assert_eq!(rt; s.pop_lowest(), Some(127));
        assert_eq!(rt; s.pop_lowest(), Some(128));
        assert_eq!(rt; s.pop_lowest(), Some(200));
        assert_eq!(rt; s.pop_lowest(), None);
        assert!(rt; s.is_empty());
    }

    // The members come one by one, in rising order.
    #[test]
    fn members_one_by_one(rt: HostRuntime) {
        let mut members = State::single(200).with(3).with(128).members();
        assert_eq!(rt; members.next(), Some(3));
        assert_eq!(rt; members.next(), Some(128));
        assert_eq!(rt; members.next(), Some(200));
        assert_eq!(rt; members.next(), None);
    }

    // A step up crosses from one word to the next, and 255 drops out.
    #[test]
    fn raised_over_words(rt: HostRuntime) {
        let s = State::single(127).with(255).with(0).raised();
        assert!(rt; s == State::single(128).with(1));
        assert!(rt; !s.touches(State::single(0)));
    }

    // A range holds both of its ends, over two words, and nothing where it falls.
    #[test]
    fn range_holds_both_ends(rt: HostRuntime) {
        let s = State::single(7).with_range(62, 65);
        assert_eq!(rt; s.count(), 5);
        assert!(rt; s.holds(7) && s.holds(62) && s.holds(65));
        assert!(rt; State::empty().with_range(2, 1).is_empty());
    }

    #[test]
    fn rules_by_number(rt: HostRuntime) {
        let r = Rules::single(63).union(Rules::single(0));
        assert!(rt; r.holds(63));
        assert!(rt; !r.holds(64));
        assert_eq!(rt; r.without(Rules::single(63)).count(), 1);
    }
}
