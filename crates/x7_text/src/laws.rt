//! Laws of rows, lines and digits. The functions do nothing: their contracts are the laws.
ghost use Rattle.std.specs.Prelude.{◌≡◌, ℕ, List, [], ◌∷◌, ◌<◌, ◌+◌, ◌^◌, ◌⊎◌, ◌++◌, true, Some, decimal};
ghost use Rattle.std.specs.List.{flat_map, AllByRecursion};
ghost use Rattle.x7_words.specs.Word.{AreBytes};
ghost use Rattle.x7_text.specs.Digits.{hex_byte, hex_digit, hex_word};
ghost use Rattle.x7_text.specs.DigitValue.{bytes_value, word_value};
ghost use Rattle.x7_words.specs.Characters.{line_end_byte, number_of_digit};
ghost use Rattle.x7_text.specs.EitherCase.{bytes_of_pairs};
ghost use Rattle.x7_text.specs.Lines.{has_no_end, joined_lines, split};
ghost use Rattle.x7_text.specs.Row.{AreFullButLast, rows, line, bytes_text, data_text, open_text, in_line_after, close, open_data, open_bytes, row_words, bytes_row_size};

/// Words that are put where no line is open, with the end of the line that they leave open, make their `data` lines,
/// and bytes their `bytes` lines.
pub fn lines_one_by_one()
    ensures words { (ws : List ℕ) → open_data 0 ws ++ close (in_line_after row_words 0 ws) ≡ data_text ws }
    ensures bytes { (bs : List ℕ) → open_bytes 0 bs ++ close (in_line_after bytes_row_size 0 bs) ≡ bytes_text bs }
{}

/// Elements that are put in two parts add the same text, and leave the same count in the open line, as all at once.
pub fn lines_in_parts()
    ensures text { (n : ℕ) (keyword : List ℕ) (text : ℕ → List ℕ) (i : ℕ) (xs ys : List ℕ) → let lines = open_text n keyword text in
        lines i (xs ++ ys) ≡ lines i xs ++ lines (in_line_after n i xs) ys }
    ensures count { (n i : ℕ) (xs ys : List ℕ) → in_line_after n i (xs ++ ys) ≡ in_line_after n (in_line_after n i xs) ys }
{}

/// The rows joined are the elements. Where a row takes at least one element, all rows but the last are full, and the
/// last is neither empty nor longer.
pub fn rows_are_the_elements()
    ensures joined { (n : ℕ) (xs : List ℕ) → flat_map (λ (row : List ℕ). row) (rows n xs) ≡ xs }
    ensures full { (n : ℕ) (xs : List ℕ) → 0 < n → AreFullButLast n (rows n xs) }
{}

/// The digits of bytes lead back to these, and those of a word of 32 bits to it. Numbers of 64 bits with the same
/// decimal digits are the same.
pub fn digits_lead_back()
    ensures bytes { (bs : List ℕ) → AreBytes bs → bytes_value (flat_map hex_byte bs) ≡ bs }
    ensures word { (w : ℕ) → w < 2 ^ 32 → word_value (hex_word w) ≡ w }
    ensures decimal { (m n : ℕ) → m < 2 ^ 64 → n < 2 ^ 64 → decimal m ≡ decimal n → m ≡ n }
{}

/// The upper-case digit of a number below 16 has this number. A digit of either case has a number below 16, and is the
/// upper-case digit of that number or the letter 32 above it. The upper-case digits of bytes lead back to these.
pub fn either_case_leads_back()
    ensures upper { (n : ℕ) → n < 16 → number_of_digit (hex_digit n) ≡ Some n }
    ensures digit { (c n : ℕ) → number_of_digit c ≡ Some n → (n < 16) × ((c ≡ hex_digit n) ⊎ (c ≡ hex_digit n + 32)) }
    ensures bytes { (bs : List ℕ) → AreBytes bs → bytes_of_pairs (flat_map hex_byte bs) ≡ Some bs }
{}

/// The lines of a text joined are the text, and none holds a line end. A text of lines that hold no line end, each with
/// its end after it, is split into these and an empty one.
pub fn lines_lead_back()
    ensures joined { (text : List ℕ) → joined_lines (split text) ≡ text }
    ensures no_ends { (text : List ℕ) → AllByRecursion (λ line. has_no_end line ≡ true) (split text) }
    ensures ended { (lines : List (List ℕ)) → AllByRecursion (λ line. has_no_end line ≡ true) lines
        → split (flat_map (λ line. line ++ line_end_byte ∷ []) lines) ≡ lines ++ [] ∷ [] }
{}
