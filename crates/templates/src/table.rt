// The table of the positions that take each code, and a rule's positions.
ghost use Rattle.std.specs.Prelude.{◌≡◌, ℕ, ◌+◌, ◌-◌, ◌/◌, ◌<◌, ◌≤◌, not, ◌&&◌, ◌||◌, length, ◌==◌, nat_le, nat_lt};
ghost use Rattle.states.specs.Sets.{has};
ghost use Rattle.templates.specs.Tables.{at};
ghost use Rattle.templates.specs.Templates.{takes_byte, takes_at};

use crate::book::RULES;
use books::Rule;
use states::State;
use std::ops::Range;

// How many positions a rule owns.
pub(crate) const SPAN: u8 = 32;

// The positions of a rule.
pub(crate) fn block(rule: Rule<RULES>) -> State
    ensures { (p : ℕ) → has result p ≡ (p / 32 == rule.number) }
{
    let first = SPAN * rule.number;
    State::empty().with_range(first, first + (SPAN - 1))
}

// Lets the positions from `first` on take what the bytes of the template take.
pub(crate) fn place(takes: &mut [State; 256], first: u8, template: &[u8])
    requires { first + length template.now < 256 }
    ensures size { length takes.new ≡ 256 }
    ensures members { (c p : ℕ) → at takes.new c p
        ≡ (at takes.old c p || (nat_le first p && takes_at template.now (p - first) c)) }
{
    for (i, byte) in template.iter().enumerate() {
        let codes = codes_of(*byte);
        mark(takes, codes, first + i as u8);
    }
}

// Takes the positions out of the whole table: it goes by code, so that no members tell which entries hold some, as they do in the
// expression book, whose rows go by position.
pub(crate) fn clear(takes: &mut [State; 256], positions: State)
    ensures size { length takes.new ≡ 256 }
    ensures members { (c p : ℕ) → at takes.new c p
        ≡ (at takes.old c p && not (has positions p)) }
{
    for entry in takes.iter_mut() {
        *entry = entry.without(positions);
    }
}

// The codes that a byte of a template takes.
fn codes_of(byte: u8) -> Range<usize>
    ensures codes { (c : ℕ) → takes_byte byte c ≡ (nat_le result.start c && nat_lt c result.end) }
    ensures ordered { (result.start ≤ result.end) × (result.end ≤ 256) }
{
    match byte {
        b'#' => b'0' as usize..b'9' as usize + 1,
        b'?' => 0..256,
        _ => byte as usize..byte as usize + 1,
    }
}

// Lets a position take the codes.
fn mark(takes: &mut [State; 256], codes: Range<usize>, position: u8)
    requires { (codes.start ≤ codes.end) × (codes.end ≤ 256) }
    ensures { (c p : ℕ) → at takes.new c p
        ≡ (at takes.old c p || (p == position && (nat_le codes.start c && nat_lt c codes.end))) }
{
    for entry in takes[codes].iter_mut() {
        *entry = entry.with(position);
    }
}
