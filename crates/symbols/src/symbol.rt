// What a kind of symbol has to tell, and the simplest kind: the byte.
ghost use Rattle.std.specs.Prelude.{◌≡◌, ℕ, ◌≤◌};
ghost use Rattle.std.proofs.Common.{rules};

// A kind of symbol. Each symbol has a code from 0 to the kind's last code, and two symbols with one code are the same.
pub trait Symbol: Copy + Drop {
    // The last code.
    const LAST: u16;

    ghost LAST: { ℕ };

    ghost code: { Self → ℕ };

    // The symbol's code.
    fn code(self) -> u16
        ensures value { result ≡ code self }
        ensures bound { result ≤ LAST };

    ghost apart: { (x y : Self) → code x ≡ code y → x ≡ y };
}

// A byte's code is its value.
impl Symbol for u8 {
    const LAST: u16 = 255;

    ghost LAST = { 255 };

    ghost code = { λ b. b };

    ghost apart = { Prim.search rules };

    fn code(self) -> u16 {
        u16::from(self)
    }
}
