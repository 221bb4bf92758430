//! Laws of streams one after another, of gaps before streams, and of packets one after another. The functions do
//! nothing: their contracts are the laws.
ghost use Rattle.std.specs.Prelude.{◌≡◌, ◌==◌, ℕ, List, [], ◌∷◌, ◌++◌, false, length, take, None};
ghost use Rattle.std.specs.List.{AllByRecursion};
ghost use Rattle.x7_words.specs.Word.{AreBytes};
ghost use Rattle.x7_packets.specs.Appended.{MayComeNext, MayFollow, after, history_after, moved};
ghost use Rattle.x7_packets.specs.ByHand.{reading_of};
ghost use Rattle.x7_packets.specs.Gap.{AreAlike, AreGaps, NoneBegins};
ghost use Rattle.x7_packets.specs.History.{history_of};
ghost use Rattle.x7_packets.specs.Packet.{HavePackets, IsWhole, Packet, words};
ghost use Rattle.x7_packets.specs.Reading.{Searching, is_synced, tail_of};
ghost use Rattle.x7_packets.specs.SyncWord.{HasNoSync, sync_bytes};
ghost use Rattle.x7_packets.specs.Machine.{AllWhole};

/// Of bytes that end searching, and later bytes after them, where no gap is open or the later ones begin with a dummy
/// word: the later bytes are read as they are alone. The reading of all is that of the first and then that of the later
/// ones; so is the history, with the later places moved, also of each prefix of the later bytes. All end in a session
/// exactly where the later ones do, and with the tail that these have.
pub fn streams_append()
    ensures reading { (bytes more : List ℕ) → AreBytes (bytes ++ more) → MayFollow (reading_of bytes).place more
        → reading_of (bytes ++ more) ≡ after (reading_of bytes) (reading_of more) }
    ensures history { (bytes more : List ℕ) → AreBytes (bytes ++ more) → MayFollow (reading_of bytes).place more
        → history_of (bytes ++ more) ≡ history_after bytes more }
    ensures synced { (bytes more : List ℕ) → AreBytes (bytes ++ more) → MayFollow (reading_of bytes).place more
        → is_synced (reading_of (bytes ++ more)).place ≡ is_synced (reading_of more).place }
    ensures tail { (bytes more : List ℕ) → AreBytes (bytes ++ more) → MayFollow (reading_of bytes).place more
        → tail_of (reading_of (bytes ++ more)).place ≡ tail_of (reading_of more).place }
    ensures prefixes { (bytes more : List ℕ) (k : ℕ) → AreBytes (bytes ++ more) → MayFollow (reading_of bytes).place more
        → history_of (bytes ++ take k more) ≡ history_after bytes (take k more) }
{}

/// Bytes without the sync word are a gap, and ask nothing; and bytes that lack a byte of the sync word are without it.
pub fn gaps_ask_nothing()
    ensures gap { (bytes : List ℕ) → AreBytes bytes → HasNoSync bytes → reading_of bytes ≡ record { sessions = []; place = Searching bytes } }
    ensures nothing { (bytes : List ℕ) → AreBytes bytes → HasNoSync bytes → history_of bytes ≡ [] }
    ensures lacks { (bytes prefix more : List ℕ) (x : ℕ) → sync_bytes ≡ prefix ++ x ∷ more → AllByRecursion (λ b. (b == x) ≡ false) bytes → HasNoSync bytes }
{}

/// Bytes after a gap in which no sync word begins are read as they are alone: they ask the same, at places moved by the
/// gap's length, and end in a session exactly where they do alone. So two such gaps of one length, each with the same
/// bytes after it, are alike, and so are their prefixes of each length.
pub fn gaps_are_passed()
    ensures history { (gap more : List ℕ) → AreBytes (gap ++ more) → NoneBegins gap more → history_of (gap ++ more) ≡ moved (length gap) (history_of more) }
    ensures synced { (gap more : List ℕ) → AreBytes (gap ++ more) → NoneBegins gap more
        → is_synced (reading_of (gap ++ more)).place ≡ is_synced (reading_of more).place }
    ensures alike { (one other more : List ℕ) (k : ℕ) → AreGaps one other more → AreAlike (take k (one ++ more)) (take k (other ++ more)) }
{}

/// Of words that end in no open payload, and then those of a packet that may come next: the packets are one more, and
/// end in no open payload where that packet is whole.
pub fn packets_append()
    ensures packets { (ws : List ℕ) (packets : List Packet) (packet : Packet) → HavePackets ws packets → AllWhole None packets → MayComeNext packets packet
        → HavePackets (ws ++ words packet) (packets ++ packet ∷ []) }
    ensures whole { (packets : List Packet) (packet : Packet) → AllWhole None packets → MayComeNext packets packet → IsWhole packet
        → AllWhole None (packets ++ packet ∷ []) }
{}
