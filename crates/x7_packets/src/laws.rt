//! Laws of readings and histories: bytes have one reading, which is found by hand, and their history grows with each
//! run and byte. The functions do nothing: their contracts are the laws.
ghost use Rattle.std.specs.Prelude.{◌≡◌, ℕ, ◌+◌, ◌*◌, ◌≤◌, ◌⊎◌, List, [], ◌∷◌, ◌++◌, false, length};
ghost use Rattle.x7_words.specs.Word.{AreBytes, AreWords};
ghost use Rattle.x7_packets.specs.ByHand.{AreOfOneSession, Reading, packets_of, reading_of};
ghost use Rattle.x7_packets.specs.Cutter.{CutAdds, GoesOnBy, HasCut, run_steps};
ghost use Rattle.x7_packets.specs.Ended.{HasEnded};
ghost use Rattle.x7_packets.specs.History.{Access, AllFit, EntersNewer, EntersNone, EntersOne, Entry, entered_all, entry, History, history, history_in, history_of, next_in, next_word, Placed, until};
ghost use Rattle.x7_packets.specs.Packet.{Packet, HavePackets};
ghost use Rattle.x7_packets.specs.Reading.{EndedSession, IsReading, Place, Searching, Synced, is_synced, tail_of};
ghost use Rattle.x7_packets.specs.declared.cutter.Cut.{Cut};
ghost use Rattle.x7_packets.specs.declared.header.Step.{Step};

/// A list of words has at most one list of packets.
pub fn one_list_of_packets()
    ensures { (ws : List ℕ) (ps qs : List Packet) → HavePackets ws ps → HavePackets ws qs → ps ≡ qs }
{}

/// A list of bytes has at most one reading.
pub fn one_reading()
    ensures { (bytes : List ℕ) (ss ts : List EndedSession) (p q : Place) → IsReading bytes ss p → IsReading bytes ts q → (ss ≡ ts) × (p ≡ q) }
{}

/// Words have packets exactly where no word follows one that ends the session; the packets are those found by hand.
pub fn packets_are_found()
    ensures found { (ws : List ℕ) → AreWords ws → AreOfOneSession ws → HavePackets ws (packets_of ws) }
    ensures unique { (ws : List ℕ) (ps : List Packet) → HavePackets ws ps → AreOfOneSession ws × (ps ≡ packets_of ws) }
{}

/// Bytes have a reading, and it is the one found by hand.
pub fn reading_is_found()
    ensures found { (bytes : List ℕ) → AreBytes bytes → IsReading bytes (reading_of bytes).sessions (reading_of bytes).place }
    ensures unique { (bytes : List ℕ) (ss : List EndedSession) (p : Place) → IsReading bytes ss p
        → (ss ≡ (reading_of bytes).sessions) × (p ≡ (reading_of bytes).place) }
{}

/// Further words of a session, or a run of a cutter, enter into the history the access of each word that has one, at
/// its place. After further words of a session the next word begins four bytes on for each of them, and no tail is
/// left. The place of the next word and the length of the tail are together the number of all bytes, and the history of
/// a reading is that of its bytes.
pub fn words_enter()
    ensures words { (old new : Reading) (more : List (ℕ × Step)) → GoesOnBy more old new → history_in new ≡ entered_all (next_in old) more (history_in old) }
    ensures next { (old new : Reading) (more : List (ℕ × Step)) → GoesOnBy more old new → next_in new ≡ next_in old + 4 * length more }
    ensures tail { (old new : Reading) (more : List (ℕ × Step)) → GoesOnBy more old new → tail_of new.place ≡ [] }
    ensures run { (run : Cut) (old new : Reading) → CutAdds run old.sessions old.place new.sessions new.place
        → history_in new ≡ entered_all (next_in old) (run_steps run) (history_in old) }
    ensures place { (bytes : List ℕ) (sessions : List EndedSession) (place : Place) → IsReading bytes sessions place
        → next_word sessions place + length (tail_of place) ≡ length bytes }
    ensures cut { (bytes more : List ℕ) (r : Reading) (run : Cut) → HasCut bytes more r run
        → history_of (bytes ++ more) ≡ entered_all (next_in r) (run_steps run) (history_of bytes) }
    ensures history { (bytes : List ℕ) (sessions : List EndedSession) (place : Place) → IsReading bytes sessions place
        → history sessions place ≡ history_of bytes }
{}

/// Words enter the same accesses in one go and in two parts: those of the second part stand before those of the first,
/// since they are newer.
pub fn words_after()
    ensures { (place : ℕ) (first more : List (ℕ × Step)) (h : History)
        → entered_all place (first ++ more) h ≡ entered_all (place + 4 * length first) more [] ++ (entered_all place first [] ++ h) }
{}

/// Bytes of a gap, the sync word and bytes of no whole word enter nothing.
pub fn nothing_enters()
    ensures gap { (sessions : List EndedSession) (gap more : List ℕ) → history sessions (Searching (gap ++ more)) ≡ history sessions (Searching gap) }
    ensures sync { (sessions : List EndedSession) (before gap : List ℕ) → history sessions (Synced gap [] []) ≡ history sessions (Searching before) }
    ensures tail { (sessions : List EndedSession) (gap tail more : List ℕ) (packets : List Packet)
        → history sessions (Synced gap packets (tail ++ more)) ≡ history sessions (Synced gap packets tail) }
{}

/// What an access of a reading holds fits: a register's number in five bits, a word in 32, a count in 27.
pub fn accesses_fit()
    ensures { (bytes : List ℕ) (sessions : List EndedSession) (place : Place) → IsReading bytes sessions place → AllFit (history sessions place) }
{}

/// A byte more enters one access at most into the history of bytes, and the access ends with that byte. Further bytes
/// enter newer accesses alone, so the accesses that end within the first bytes are those of these bytes. The accesses
/// of bytes end within them, at places that fall strictly from the newest on.
pub fn histories_grow()
    ensures access { (bytes : List ℕ) (x : ℕ) → AreBytes (bytes ++ x ∷ [])
        → EntersNone bytes (x ∷ []) ⊎ ((access : Access) × EntersOne bytes (x ∷ []) (entry access (length bytes + 1))) }
    ensures newer { (bytes more : List ℕ) → AreBytes (bytes ++ more)
        → EntersNewer bytes more }
    ensures prefix { (bytes more : List ℕ) → AreBytes (bytes ++ more) → until (length bytes) (history_of (bytes ++ more)) ≡ history_of bytes }
    ensures placed { (bytes : List ℕ) → AreBytes bytes → Placed (length bytes) (history_of bytes) }
{}

/// Up to four bytes more enter one access at most into the history of bytes.
pub fn four_bytes_enter_one()
    ensures { (bytes more : List ℕ) → AreBytes (bytes ++ more) → length more ≤ 4
        → EntersNone bytes more ⊎ ((e : Entry) × EntersOne bytes more e) }
{}

/// Where bytes end searching, DESYNC written to CMD is the newest access of their history, or the history has no
/// access.
pub fn searching_after_desync()
    ensures { (bytes : List ℕ) → AreBytes bytes → is_synced (reading_of bytes).place ≡ false → HasEnded (history_of bytes) }
{}
