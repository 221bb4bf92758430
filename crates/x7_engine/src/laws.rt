//! Laws of devices: of their stops, startup, checks, words read out and fallbacks. The functions do nothing: their
//! contracts are the laws.
ghost use Rattle.std.specs.Prelude.{◌≡◌, ◌+◌, ◌-◌, ◌<◌, ◌≤◌, ◌++◌, ◌↔◌, ℕ, Bool, IsSome, IsTrue, List, [], None, Some, false, length, true};
ghost use Rattle.x7_words.specs.Word.{AreBytes};
ghost use Rattle.x7_packets.specs.Gap.{AreAlike};
ghost use Rattle.x7_packets.specs.History.{Access, AllFit, History, Placed, history_of};
ghost use Rattle.x7_packets.specs.SyncWord.{HasNoSync};
ghost use Rattle.x7_part.specs.Part.{PartData};
ghost use Rattle.x7_regs.specs.BootStatus.{cause_bits_of};
ghost use Rattle.x7_regs.specs.declared.boot_status.Cause.TheVariants.{Wrap};
ghost use Rattle.x7_regs.specs.declared.register.Reg.TheVariants.{Crc, Idcode};
ghost use Rattle.x7_startup.specs.Startup.{Begun, IsPhaseOf};
ghost use Rattle.x7_crc.specs.RunningCheck.{running_check};
ghost use Rattle.x7_engine.specs.Checked.{HasStartAndDesync};
ghost use Rattle.x7_engine.specs.Kept.{AreFallbacks, is_fallback, on_the_bench, without_kept};
ghost use Rattle.x7_engine.specs.FirstStop.{IsFirstStop, why_at_byte};
ghost use Rattle.x7_flow.specs.Controls.{masked_register, same_idcode};
ghost use Rattle.x7_flow.specs.Standing.{write_access};
ghost use Rattle.x7_engine.specs.Registers.{HasMaskedBits, cor0_held, has_ghigh, clears_check, is_pending, takes_shutdown};
ghost use Rattle.x7_engine.specs.Past.{HasPast, HasStoppedBefore, IsBootAttempt, ForEachPast, Past, StandsBefore, due_at, history_taken_at, later, memory_at, reads_at, state_at, first_stop_at, taken_at, reads_given_at};
ghost use Rattle.x7_engine.specs.Rest.{AtRest, LastGapGoesOn};
ghost use Rattle.x7_engine.specs.Sequence.{StartupBegins, HasGhigh, IsPending};
ghost use Rattle.x7_engine.specs.Standing.{DeviceState, HasStopped, NoWordDue};
ghost use Rattle.x7_engine.specs.Startup.{phase_of, startup_progress};
ghost use Rattle.x7_engine.specs.Shown.{with_bootsts};
ghost use Rattle.x7_engine.specs.State.{bootsts_of, memory_of_bytes, reads_of, state_of, first_stop_of_bytes, cause_of};
ghost use Rattle.x7_engine.specs.Stop.{Stopped, why_at_access};
ghost use Rattle.x7_engine.specs.Timeout.{before_byte, times_out_at};
ghost use Rattle.x7_engine.specs.Watching.{watchdog_fires};
ghost use Rattle.x7_engine.specs.declared.kept.Kept.{Kept};

/// The stop of bytes is the first one: it comes at one of them, a prefix that ends before it has none, and with further
/// bytes the stop, the state, the memory and the words read out stay.
pub fn stops_are_final()
    ensures place { (part : PartData) (kept : Kept) (bytes : List ℕ) (s : Stopped) → AreBytes bytes → first_stop_of_bytes part kept bytes ≡ Some s
        → (0 < s.place) × (s.place ≤ length bytes) }
    ensures before { (p : Past) (more : List ℕ) (s : Stopped) → AreBytes (p.bytes ++ more) → first_stop_at (later p more) ≡ Some s
        → length p.bytes < s.place → first_stop_at p ≡ None }
    ensures stop { (p : Past) (more : List ℕ) (s : Stopped) → HasStoppedBefore p more s → first_stop_at (later p more) ≡ Some s }
    ensures state { (p : Past) (more : List ℕ) (s : Stopped) → HasStoppedBefore p more s → state_at (later p more) ≡ state_at p }
    ensures reads { (p : Past) (more : List ℕ) (s : Stopped) → HasStoppedBefore p more s → reads_at (later p more) ≡ reads_at p }
    ensures memory { (p : Past) (more : List ℕ) (s : Stopped) → HasStoppedBefore p more s → memory_at (later p more) ≡ memory_at p }
{}

/// Something stopped a device just where the bytes of each of its pasts have a stop; each device has a past
/// (`Device::past_exists`).
pub fn stopped_devices_have_a_stop()
    ensures { (d : DeviceState) (p : Past) → HasPast d p → HasStopped d ↔ IsSome (first_stop_at p) }
{}

/// Each of the 32 bits of a register under MASK (CTL0 or CTL1) is that of the last word written to it while MASK had
/// that bit, and 0 where there was none.
pub fn controls_take_masked_bits()
    ensures { (register : ℕ) (h : History) → AllFit h → HasMaskedBits register (masked_register register h) h }
{}

/// The phase of startup is the greatest, up to 7, that has begun by the ticks so far, and 0 where startup hasn't begun.
pub fn phases_are_the_greatest_begun()
    ensures { (part : PartData) (h : History) (n : ℕ) → IsPhaseOf part.lock part.matched (startup_progress h n) (phase_of part h n) }
{}

/// A shutdown is pending where SHUTDOWN was executed since the check was last cleared, or since the reset; an access
/// that clears the check takes the pending shutdown. GHIGH_B is 1 where the latest of LFRM, AGHIGH and a taken shutdown
/// is LFRM.
pub fn shutdowns_and_ghigh()
    ensures pending { (h : History) → IsTrue (is_pending h) ↔ IsPending h }
    ensures taken { (h : History) (access : Access) → IsTrue (takes_shutdown h access) ↔ (IsTrue (clears_check h access) × IsPending h) }
    ensures ghigh { (h : History) → IsTrue (has_ghigh h) ↔ HasGhigh h }
{}

/// Startup begins at the first armed DESYNC since the last shutdown taken, with COR0 as it stands there; armed: START
/// was executed since the last DESYNC and the last shutdown taken. Of the n bytes taken, `bytes` come after that
/// DESYNC.
pub fn startup_begins()
    ensures begun { (h : History) (n cor0 bytes : ℕ) → Placed n h → startup_progress h n ≡ Begun cor0 bytes
        → (b : StartupBegins h) × (cor0 ≡ cor0_held b.older) × (b.desync.place + bytes ≡ n) }
    ensures found { (h : History) (n : ℕ) → Placed n h → (b : StartupBegins h) → startup_progress h n ≡ Begun (cor0_held b.older) (n - b.desync.place) }
{}

/// The stop of bytes is just the first one: its byte stops the device, and no byte before it. Where there is none, no
/// byte does.
pub fn stops_are_first()
    ensures first { (part : PartData) (kept : Kept) (bytes : List ℕ) (s : Stopped) → AreBytes bytes → first_stop_of_bytes part kept bytes ≡ Some s → IsFirstStop part kept bytes s }
    ensures found { (part : PartData) (kept : Kept) (bytes : List ℕ) (s : Stopped) → AreBytes bytes → IsFirstStop part kept bytes s → first_stop_of_bytes part kept bytes ≡ Some s }
    ensures no_stop { (part : PartData) (kept : Kept) (bytes : List ℕ) (n : ℕ) → AreBytes bytes → first_stop_of_bytes part kept bytes ≡ None → 0 < n → n ≤ length bytes
        → why_at_byte part kept bytes n ≡ None }
{}

/// The watchdog fires at byte n, counted from 1, just where it is on at that byte, and as many bytes since the last
/// load, byte n among them, had it on as four times TIMER's value. A load is a write to TIMER, LTIMER or the reset.
pub fn watchdog_fires()
    ensures { (part : PartData) (kept : Kept) (bytes : List ℕ) (n : ℕ) → AreBytes bytes → 0 < n → n ≤ length bytes
        → watchdog_fires part kept (before_byte bytes n) n ≡ times_out_at part kept bytes n }
{}

/// The phase of startup is above 0 only where START was executed after the part's IDCODE was written, and DESYNC after
/// START. Each check and each IDCODE written before the stop was right, whether startup began or not, and no access
/// before the stop stops the device; of a device that hasn't stopped this is said of the accesses that end before the
/// last byte.
pub fn checks_before_startup()
    ensures started { (p : Past) → AreBytes p.bytes → 0 < (state_at p).phase → HasStartAndDesync p.part.idcode (history_taken_at p) (taken_at p) }
    ensures checks { (p : Past) (w place : ℕ) (older : History) → StandsBefore p (write_access Crc w) place older → w ≡ running_check older }
    ensures idcodes { (p : Past) (w place : ℕ) (older : History) → StandsBefore p (write_access Idcode w) place older → IsTrue (same_idcode p.part.idcode w) }
    ensures no_stop { (p : Past) (access : Access) (place : ℕ) (older : History) → StandsBefore p access place older → why_at_access p.part p.kept older access ≡ None }
{}

/// A device at rest stays at rest over bytes with which its gap goes on without a sync word; such bytes enter no
/// access. A new device on the bench is at rest.
pub fn rest_lasts()
    ensures stays { (part : PartData) (kept : Kept) (bytes more : List ℕ) → AreBytes (bytes ++ more) → LastGapGoesOn bytes more
        → AtRest part kept bytes → AtRest part kept (bytes ++ more) }
    ensures same_history { (bytes more : List ℕ) → AreBytes (bytes ++ more) → LastGapGoesOn bytes more → history_of (bytes ++ more) ≡ history_of bytes }
    ensures new_device { (part : PartData) → AtRest part on_the_bench [] }
{}

/// The words read out are those given, and then those that are still due: none, where no word is due.
pub fn reads_are_given_or_due()
    ensures all { (d : DeviceState) → ForEachPast d (λ p. reads_given_at d p ++ due_at d p ≡ reads_at p) }
    ensures none_due { (d : DeviceState) (p : Past) → NoWordDue d → due_at d p ≡ [] }
{}

/// The words that further bytes read out come after those read out so far.
pub fn reads_grow()
    ensures { (part : PartData) (kept : Kept) (bytes more : List ℕ) → AreBytes (bytes ++ more)
        → (rest : List ℕ) × (reads_of part kept (bytes ++ more) ≡ reads_of part kept bytes ++ rest) }
{}

/// The end of the flash shows in BOOTSTS alone: where no fault that a fallback follows
/// ended the attempt of a boot, by the wrap bit.
pub fn wraps_show_in_bootsts()
    ensures alone { (part : PartData) (kept : Kept) (bytes : List ℕ)
        → state_of part kept true bytes ≡ with_bootsts (bootsts_of part kept true bytes) (state_of part kept false bytes) }
    ensures bit { (part : PartData) (kept : Kept) (bytes : List ℕ) → IsBootAttempt kept → cause_of part kept bytes ≡ None
        → bootsts_of part kept true bytes ≡ bootsts_of part kept false bytes + cause_bits_of (Some Wrap) }
{}

/// Two lists of bytes of one length that ask the same at the same places and both end in a session or neither does, as
/// after two gaps of one length, bring a device to the same stop, state and memory.
pub fn alike_bytes_do_alike()
    ensures stop { (part : PartData) (kept : Kept) (one other : List ℕ) → AreAlike one other → first_stop_of_bytes part kept one ≡ first_stop_of_bytes part kept other }
    ensures memory { (part : PartData) (kept : Kept) (one other : List ℕ) → AreAlike one other → memory_of_bytes part kept one ≡ memory_of_bytes part kept other }
    ensures state { (part : PartData) (kept : Kept) (one other : List ℕ) → AreAlike one other → (wrapped : Bool)
        → state_of part kept wrapped one ≡ state_of part kept wrapped other }
{}

/// A fallback does the same whatever its device kept over the reset: its stop, its memory, and its state but for the
/// end, WBSTAR, TIMER, BSPI and BOOTSTS.
pub fn fallbacks_do_alike()
    ensures stop { (part : PartData) (one other : Kept) (bytes : List ℕ) → AreFallbacks one other → first_stop_of_bytes part one bytes ≡ first_stop_of_bytes part other bytes }
    ensures memory { (part : PartData) (one other : Kept) (bytes : List ℕ) → AreFallbacks one other → memory_of_bytes part one bytes ≡ memory_of_bytes part other bytes }
    ensures registers { (part : PartData) (one other : Kept) (bytes : List ℕ) → AreFallbacks one other → (wrapped : Bool)
        → without_kept (state_of part one wrapped bytes) ≡ without_kept (state_of part other wrapped bytes) }
{}

/// A fallback waits for the sync word without end: bytes without it, however many, stop nothing, and the phase of
/// startup stays 0.
pub fn fallbacks_wait_for_the_sync_word()
    ensures stop { (part : PartData) (kept : Kept) (bytes : List ℕ) → AreBytes bytes → is_fallback kept.kind ≡ true → HasNoSync bytes
        → first_stop_of_bytes part kept bytes ≡ None }
    ensures phase { (part : PartData) (kept : Kept) (wrapped : Bool) (bytes : List ℕ) → AreBytes bytes → is_fallback kept.kind ≡ true → HasNoSync bytes
        → (state_of part kept wrapped bytes).phase ≡ 0 }
{}
