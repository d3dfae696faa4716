/// What can be due: a token of a class, or a text of a rule.
#[derive(Clone, Copy, Debug, PartialEq, Eq, Drop)]
pub enum Item {
    Token(u8),
    Rule(u8),
}

/// A step of a derivation: the token that is due is taken, or the rule that is due goes on by the production with a number.
#[derive(Clone, Copy, Debug, PartialEq, Eq, Drop)]
pub enum Step {
    Take,
    Choose(u16),
}

/// Room for the items of a production: a tuple, since a static's structs hold no arrays of enums in clauses.
#[derive(Clone, Copy, Drop)]
pub struct Body(
    pub Item,
    pub Item,
    pub Item,
    pub Item,
    pub Item,
    pub Item,
    pub Item,
    pub Item,
    pub Item,
    pub Item,
    pub Item,
    pub Item,
);

/// A text of the rule is what the first `length` items of the body make, one after another. `production!` writes one.
#[derive(Clone, Copy, Drop)]
pub struct Production {
    pub rule: u8,
    /// The classes at which the production is chosen, one bit each: those below 64.
    pub first: u64,
    pub body: Body,
    pub length: usize,
    /// Whether it counts as nesting. Let it begin with its opening token and end with what closes it.
    pub deep: bool,
}

/// What makes a table a grammar: its texts are those of the rule `start`, each with a token of the class `end` behind it.
#[derive(Clone, Copy, Drop)]
pub struct Frame {
    pub start: u8,
    pub end: u8,
    /// How many deep productions may be open at a token.
    pub deepest: usize,
}
