// Readers over expression books with the same rules answer alike.
#![tactic(auto)]

mod comparing;
mod sight;

pub use comparing::agree;
pub use sight::Sight;
