ghost use Rattle.std.specs.Prelude.{ℕ, ◌<◌, ◌^◌, All};
ghost use Rattle.word_draws.specs.Draws.{drawn_words};
ghost use Rattle.word_draws.specs.Known.{KnownDraws};

/// Words of B bits are below 2^B.
pub fn words_fit()
    ensures { (B state count : ℕ) → All (λ word. word < 2 ^ B) (drawn_words B state count) }
{}

/// The first draws and words of small seeds, worked by hand.
pub fn known_cases()
    ensures { KnownDraws }
{}
