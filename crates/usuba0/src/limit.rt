//! The limits of a core and of a builder.
ghost use Rattle.std.specs.Prelude.{◌≡◌, ◌^◌};

/// The greatest `(equations + products) * width` of a core.
pub const MAX_WEIGHT: u64 = 131_072;

/// The greatest `(inputs + 2 products + refreshes) * width` of a core.
pub const MAX_COLUMNS: u64 = 32_768;

/// How many terms a builder can hold, and how many outputs it can be closed with.
pub const MAX_TERMS: u32 = 33_554_432;

/// How many numbers there are for refreshes.
pub const REFRESH_NUMBERS: u32 = 65_536;

/// The value of each limit.
pub fn limits()
    ensures weight { MAX_WEIGHT ≡ 131072 }
    ensures columns { MAX_COLUMNS ≡ 32768 }
    ensures terms { MAX_TERMS ≡ 2 ^ 25 }
    ensures refresh_numbers { REFRESH_NUMBERS ≡ 65536 }
{}
