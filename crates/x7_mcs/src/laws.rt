//! What a text gives, said in other words: laws of the definitions. The functions do nothing: their contracts are the
//! laws.
ghost use Rattle.std.specs.Prelude.{◌≡◌, ℕ, true, false, ◌≤◌, ◌<◌, ◌+◌, ◌-◌, ◌*◌, ◌%◌, List, ◌∷◌, ◌++◌, length, get_or, Some, None, Ok, Err};
ghost use Rattle.x7_text.specs.Row.{rows};
ghost use Rattle.x7_words.specs.Flash.{erased_byte, flash_limit};
ghost use Rattle.x7_words.specs.Word.{AreBytes};
ghost use Rattle.x7_mcs.specs.Flash.{FlashReading, after_lines, and_then, mcs_of, flash_reading};
ghost use Rattle.x7_mcs.specs.DataRecords.{HaveNoOverlap, DataRecord, byte_at, covered, covers, extent, records_image, overlap};
ghost use Rattle.x7_mcs.specs.Text.{mcs_text, row_lines, row_size};
ghost use Rattle.x7_mcs.specs.declared.fault.McsFault.{McsFault};

/// The Intel HEX text of a flash image leads back to the image, which has at most 134,217,728 bytes.
pub fn text_leads_back()
    ensures { (bytes : List ℕ) → AreBytes bytes → length bytes ≤ flash_limit → mcs_of (mcs_text bytes) ≡ Ok bytes }
{}

/// The text of bytes has at most 15 characters for each four of them, and 40 more.
pub fn text_is_short()
    ensures { (bytes : List ℕ) → 4 * length (mcs_text bytes) ≤ 15 * length bytes + 160 }
{}

/// Want of memory is no text's fault.
pub fn want_of_memory_is_no_fault()
    ensures { (text : List ℕ) → mcs_of text ≡ Err McsFault.NoMemory → ⊥ }
{}

/// Lines are read in turn: what the first of them give is where the others begin, and their first fault stays.
pub fn lines_in_turn()
    ensures { (n : ℕ) (r : FlashReading) (first others : List (List ℕ))
        → after_lines n r (first ++ others) ≡ and_then (after_lines n r first) (λ s. after_lines (n + length first) s others) }
{}

/// A flash of records is as long as the furthest of them reaches. Its byte at a place is `byte_at`: where no two
/// records overlap, the byte of the record that covers the place, and FF where no record covers it.
pub fn bytes_by_place()
    ensures length { (records : List DataRecord) → length (records_image records) ≡ extent records }
    ensures each_byte { (records : List DataRecord) (p : ℕ) → p < extent records → get_or (records_image records) p erased_byte ≡ byte_at records p }
    ensures covered { (before after : List DataRecord) (x : DataRecord) (p : ℕ) → HaveNoOverlap (before ++ x ∷ after) → covers x p ≡ true
        → byte_at (before ++ x ∷ after) p ≡ get_or x.bytes (p - x.place) erased_byte }
    ensures uncovered { (records : List DataRecord) (p : ℕ) → covered records p ≡ false → byte_at records p ≡ erased_byte }
{}

/// No two records of a good text cover one place.
pub fn records_are_apart()
    ensures { (text : List ℕ) (r : FlashReading) → flash_reading text ≡ Ok r → HaveNoOverlap r.records }
{}

/// Of the n places from place p on: the one that `overlap` names is the least that a record covers; where it names
/// none, no record covers one of them.
pub fn overlap_is_the_least()
    ensures found { (xs : List DataRecord) (p n q : ℕ) → overlap xs p n ≡ Some q → (p ≤ q) × (q < p + n) × (covered xs q ≡ true) × ((k : ℕ) → p ≤ k → k < q → covered xs k ≡ false) }
    ensures none_covered { (xs : List DataRecord) (p n : ℕ) → overlap xs p n ≡ None → (k : ℕ) → p ≤ k → k < p + n → covered xs k ≡ false }
{}

/// The lines of bytes are those of two parts of them, one after the other, where the first part is of whole rows.
pub fn rows_in_parts()
    ensures { (place : ℕ) (xs ys : List ℕ) → length xs % row_size ≡ 0
        → row_lines place (rows row_size (xs ++ ys)) ≡ row_lines place (rows row_size xs) ++ row_lines (place + length xs) (rows row_size ys) }
{}
