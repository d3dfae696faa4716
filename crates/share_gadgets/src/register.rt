//! The words that sharings are made of.
ghost use Rattle.std.specs.Prelude.{◌≡◌, ◌⊎◌, ℕ, ◌+◌, ◌-◌, ◌*◌, ◌/◌, ◌%◌, ◌^◌, ◌<◌, ◌≤◌, bit_and, bit_xor};
ghost use Rattle.share_gadgets.specs.Private.WordLaws as laws;

/// A word of 8, 16, 32 or 64 bits.
pub trait Register: Copy {
    ghost zero: { Self };

    ghost xor: { Self → Self → Self };

    ghost and: { Self → Self → Self };

    ghost shl: { Self → ℕ → Self };

    ghost shr: { Self → ℕ → Self };

    ghost of_word: { ℕ → Self };

    ghost word: { Self → ℕ };

    ghost bits: { ℕ };

    fn zero() -> Self
        ensures { result ≡ zero };

    fn xor(self, other: Self) -> Self
        ensures { result ≡ xor self other };

    fn and(self, other: Self) -> Self
        ensures { result ≡ and self other };

    fn shl(self, k: u32) -> Self
        requires { k < bits }
        ensures { result ≡ shl self k };

    fn shr(self, k: u32) -> Self
        requires { k < bits }
        ensures { result ≡ shr self k };

    /// The low bits of a number.
    fn of_word(w: u64) -> Self
        ensures { result ≡ of_word w };

    /// The word as a number.
    fn word(self) -> u64
        ensures value { result ≡ word self }
        ensures fits { result < 2 ^ bits };

    /// How many bits a word has.
    fn bits() -> u32
        ensures { result ≡ bits };

    ghost xor_associative: { (x y z : Self) → xor (xor x y) z ≡ xor x (xor y z) };

    ghost xor_commutative: { (x y : Self) → xor x y ≡ xor y x };

    ghost zero_neutral: { (x : Self) → xor x zero ≡ x };

    ghost own_inverse: { (x : Self) → xor x x ≡ zero };

    ghost and_distributes: { (x y z : Self) → and x (xor y z) ≡ xor (and x y) (and x z) };

    ghost and_distributes_right: { (x y z : Self) → and (xor x y) z ≡ xor (and x z) (and y z) };

    ghost shl_distributes: { (x y : Self) (k : ℕ) → shl (xor x y) k ≡ xor (shl x k) (shl y k) };

    ghost shr_distributes: { (x y : Self) (k : ℕ) → shr (xor x y) k ≡ xor (shr x k) (shr y k) };

    ghost sizes: { (bits ≡ 8) ⊎ (bits ≡ 16) ⊎ (bits ≡ 32) ⊎ (bits ≡ 64) };

    ghost word_zero: { word zero ≡ 0 };

    ghost word_xor: { (x y : Self) → word (xor x y) ≡ bit_xor (word x) (word y) };

    ghost word_and: { (x y : Self) → word (and x y) ≡ bit_and (word x) (word y) };

    ghost word_shr: { (x : Self) (k : ℕ) → word (shr x k) ≡ word x / 2 ^ k };

    ghost word_shl: { (x : Self) (k : ℕ) → word (shl x k) ≡ (word x * 2 ^ k) % 2 ^ bits };

    ghost word_of_word: { (w : ℕ) → word (of_word w) ≡ w % 2 ^ bits };

    ghost of_word_word: { (x : Self) → word x < 2 ^ bits → of_word (word x) ≡ x };
}

impl Register for u8 {
    ghost zero = { 0 };

    ghost xor = { bit_xor };

    ghost and = { bit_and };

    ghost shl = { λ x k. (x * 2 ^ k) % 2 ^ 8 };

    ghost shr = { λ x k. x / 2 ^ k };

    ghost of_word = { λ w. w % 2 ^ 8 };

    ghost word = { λ x. x };

    ghost bits = { 8 };

    ghost xor_associative = { laws.xor_assoc };

    ghost xor_commutative = { laws.xor_comm };

    ghost zero_neutral = { laws.xor_zero_r };

    ghost own_inverse = { laws.xor_self };

    ghost and_distributes = { laws.and_xor };

    ghost and_distributes_right = { laws.xor_and };

    ghost shl_distributes = { laws.shl_xor 8 };

    ghost shr_distributes = { laws.shr_xor };

    ghost sizes = { laws.size_8 };

    ghost word_zero = { laws.same 0 };

    ghost word_xor = { λ x y. laws.same (bit_xor x y) };

    ghost word_and = { λ x y. laws.same (bit_and x y) };

    ghost word_shr = { λ x k. laws.same (x / 2 ^ k) };

    ghost word_shl = { λ x k. laws.same ((x * 2 ^ k) % 2 ^ 8) };

    ghost word_of_word = { λ w. laws.same (w % 2 ^ 8) };

    ghost of_word_word = { laws.mod_below 8 };

    fn zero() -> u8 {
        0
    }

    fn xor(self, other: u8) -> u8 {
        self ^ other
    }

    fn and(self, other: u8) -> u8 {
        self & other
    }

    fn shl(self, k: u32) -> u8 {
        self << k
    }

    fn shr(self, k: u32) -> u8 {
        self >> k
    }

    fn of_word(w: u64) -> u8 {
        (w % 256) as u8
    }

    fn word(self) -> u64 {
        u64::from(self)
    }

    fn bits() -> u32 {
        u8::BITS
    }
}

impl Register for u16 {
    ghost zero = { 0 };

    ghost xor = { bit_xor };

    ghost and = { bit_and };

    ghost shl = { λ x k. (x * 2 ^ k) % 2 ^ 16 };

    ghost shr = { λ x k. x / 2 ^ k };

    ghost of_word = { λ w. w % 2 ^ 16 };

    ghost word = { λ x. x };

    ghost bits = { 16 };

    ghost xor_associative = { laws.xor_assoc };

    ghost xor_commutative = { laws.xor_comm };

    ghost zero_neutral = { laws.xor_zero_r };

    ghost own_inverse = { laws.xor_self };

    ghost and_distributes = { laws.and_xor };

    ghost and_distributes_right = { laws.xor_and };

    ghost shl_distributes = { laws.shl_xor 16 };

    ghost shr_distributes = { laws.shr_xor };

    ghost sizes = { laws.size_16 };

    ghost word_zero = { laws.same 0 };

    ghost word_xor = { λ x y. laws.same (bit_xor x y) };

    ghost word_and = { λ x y. laws.same (bit_and x y) };

    ghost word_shr = { λ x k. laws.same (x / 2 ^ k) };

    ghost word_shl = { λ x k. laws.same ((x * 2 ^ k) % 2 ^ 16) };

    ghost word_of_word = { λ w. laws.same (w % 2 ^ 16) };

    ghost of_word_word = { laws.mod_below 16 };

    fn zero() -> u16 {
        0
    }

    fn xor(self, other: u16) -> u16 {
        self ^ other
    }

    fn and(self, other: u16) -> u16 {
        self & other
    }

    fn shl(self, k: u32) -> u16 {
        self << k
    }

    fn shr(self, k: u32) -> u16 {
        self >> k
    }

    fn of_word(w: u64) -> u16 {
        (w % 65_536) as u16
    }

    fn word(self) -> u64 {
        u64::from(self)
    }

    fn bits() -> u32 {
        u16::BITS
    }
}

impl Register for u32 {
    ghost zero = { 0 };

    ghost xor = { bit_xor };

    ghost and = { bit_and };

    ghost shl = { λ x k. (x * 2 ^ k) % 2 ^ 32 };

    ghost shr = { λ x k. x / 2 ^ k };

    ghost of_word = { λ w. w % 2 ^ 32 };

    ghost word = { λ x. x };

    ghost bits = { 32 };

    ghost xor_associative = { laws.xor_assoc };

    ghost xor_commutative = { laws.xor_comm };

    ghost zero_neutral = { laws.xor_zero_r };

    ghost own_inverse = { laws.xor_self };

    ghost and_distributes = { laws.and_xor };

    ghost and_distributes_right = { laws.xor_and };

    ghost shl_distributes = { laws.shl_xor 32 };

    ghost shr_distributes = { laws.shr_xor };

    ghost sizes = { laws.size_32 };

    ghost word_zero = { laws.same 0 };

    ghost word_xor = { λ x y. laws.same (bit_xor x y) };

    ghost word_and = { λ x y. laws.same (bit_and x y) };

    ghost word_shr = { λ x k. laws.same (x / 2 ^ k) };

    ghost word_shl = { λ x k. laws.same ((x * 2 ^ k) % 2 ^ 32) };

    ghost word_of_word = { λ w. laws.same (w % 2 ^ 32) };

    ghost of_word_word = { laws.mod_below 32 };

    fn zero() -> u32 {
        0
    }

    fn xor(self, other: u32) -> u32 {
        self ^ other
    }

    fn and(self, other: u32) -> u32 {
        self & other
    }

    fn shl(self, k: u32) -> u32 {
        self << k
    }

    fn shr(self, k: u32) -> u32 {
        self >> k
    }

    fn of_word(w: u64) -> u32 {
        (w % 4_294_967_296) as u32
    }

    fn word(self) -> u64 {
        u64::from(self)
    }

    fn bits() -> u32 {
        u32::BITS
    }
}

impl Register for u64 {
    ghost zero = { 0 };

    ghost xor = { bit_xor };

    ghost and = { bit_and };

    ghost shl = { λ x k. (x * 2 ^ k) % 2 ^ 64 };

    ghost shr = { λ x k. x / 2 ^ k };

    ghost of_word = { λ w. w % 2 ^ 64 };

    ghost word = { λ x. x };

    ghost bits = { 64 };

    ghost xor_associative = { laws.xor_assoc };

    ghost xor_commutative = { laws.xor_comm };

    ghost zero_neutral = { laws.xor_zero_r };

    ghost own_inverse = { laws.xor_self };

    ghost and_distributes = { laws.and_xor };

    ghost and_distributes_right = { laws.xor_and };

    ghost shl_distributes = { laws.shl_xor 64 };

    ghost shr_distributes = { laws.shr_xor };

    ghost sizes = { laws.size_64 };

    ghost word_zero = { laws.same 0 };

    ghost word_xor = { λ x y. laws.same (bit_xor x y) };

    ghost word_and = { λ x y. laws.same (bit_and x y) };

    ghost word_shr = { λ x k. laws.same (x / 2 ^ k) };

    ghost word_shl = { λ x k. laws.same ((x * 2 ^ k) % 2 ^ 64) };

    ghost word_of_word = { λ w. laws.same (w % 2 ^ 64) };

    ghost of_word_word = { laws.mod_below 64 };

    fn zero() -> u64 {
        0
    }

    fn xor(self, other: u64) -> u64 {
        self ^ other
    }

    fn and(self, other: u64) -> u64 {
        self & other
    }

    fn shl(self, k: u32) -> u64 {
        self << k
    }

    fn shr(self, k: u32) -> u64 {
        self >> k
    }

    fn of_word(w: u64) -> u64 {
        w
    }

    fn word(self) -> u64 {
        self
    }

    fn bits() -> u32 {
        u64::BITS
    }
}
