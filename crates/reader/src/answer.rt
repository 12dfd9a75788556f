use states::Rules;

// What a whole reading answers: the rules that the text meets, and how many steps were worked out.
#[derive(Clone, Copy, Debug)]
pub struct Answer {
    pub rules: Rules,
    pub count: usize,
}

// A token: where it begins, how long it is, the rules that it meets, and how many steps were worked out.
#[derive(Clone, Copy, Debug)]
pub struct Token {
    pub place: usize,
    pub length: usize,
    pub rules: Rules,
    pub count: usize,
}
