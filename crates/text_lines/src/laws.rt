ghost use Rattle.std.specs.Prelude.{◌≡◌, ◌≢◌, ◌<◌, ◌^◌, ◌++◌, ◌∷◌, [], ℕ, List, Option, Some, true, decimal};
ghost use Rattle.text_lines.specs.Lines.{lines_of};
ghost use Rattle.text_lines.specs.Numbers as numbers;
ghost use Rattle.text_lines.specs.Words.{is_plain_word, are_plain_words, line_text};

/// A line that is written of words is read as these words, whatever stands after it, and a line that is read is written of its
/// words.
pub fn lines_read_back()
    ensures read { (words : List (List ℕ)) (rest : List ℕ) → words ≢ [] → are_plain_words words ≡ true
        → lines_of (line_text words ++ rest) ≡ Some words ∷ lines_of rest }
    ensures written { (text : List ℕ) (words : List (List ℕ)) (lines : List (Option (List (List ℕ))))
        → lines_of text ≡ Some words ∷ lines
        → (rest : List ℕ) × (text ≡ line_text words ++ rest) × (lines_of rest ≡ lines) }
{}

/// A number that is written is one word and is read as this number, and a number that is read is written in no other way.
pub fn numbers_read_back()
    ensures read { (n : ℕ) → n < 2 ^ 64
        → (is_plain_word (decimal n) ≡ true) × (numbers.is_number (decimal n) ≡ true)
        × (numbers.value_of (decimal n) ≡ n) }
    ensures written { (word : List ℕ) → numbers.is_number word ≡ true → numbers.value_of word < 2 ^ 64
        → word ≡ decimal (numbers.value_of word) }
{}
