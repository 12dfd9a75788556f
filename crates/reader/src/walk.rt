use books::Refusal;
use states::State;

// An open walk: the state that it has come to, and the edition of the reader that began it. Feeding and finishing take it
// by value, so that a walk that was finished can be neither fed nor finished again.
#[derive(Drop)]
pub struct Walk {
    pub(crate) state: State,
    pub(crate) edition: u32,
}

// A walk that went on by one symbol, and whether that step was worked out. The walk goes on in both cases, so it is no Option.
#[derive(Drop)]
pub struct Fed {
    pub walk: Walk,
    pub worked: bool,
}

// A walk that is not this reader's, handed back, and the refusal.
#[derive(Drop)]
pub struct HandedBack {
    pub walk: Walk,
    pub refusal: Refusal,
}
