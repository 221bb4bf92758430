//! Laws of the frames of a history. The functions do nothing: their contracts are the laws.
ghost use Rattle.std.specs.Prelude.{◌≡◌, ◌↔◌, ◌∷◌, ◌++◌, [], ℕ, List, None, Option, Some, reverse, ◌<◌, ◌-◌, true, false};
ghost use Rattle.x7_memory.specs.FrameMap.{HaveSameFrames};
ghost use Rattle.x7_part.specs.AddressOrder.{Rises, addresses_in};
ghost use Rattle.x7_part.specs.Part.{PartData, frame_words};
ghost use Rattle.x7_packets.specs.History.{Access, Entry, History};
ghost use Rattle.x7_regs.specs.declared.command.Command.TheVariants as command;
ghost use Rattle.x7_regs.specs.declared.register.Reg.TheVariants as reg;
ghost use Rattle.x7_pipeline.specs.Flow.{LandsAt, after_words};
ghost use Rattle.x7_pipeline.specs.Runs.{written_frames, onto};
ghost use Rattle.x7_pipeline.specs.Saved.{SavedState};
ghost use Rattle.x7_pipeline.specs.declared.fault.RunFault.{RunFault};
ghost use Rattle.x7_flow.specs.Alike.{AreSameButForMask, WritesMaskBeforeCtl0};
ghost use Rattle.x7_flow.specs.HistoryFlow.{Flow, HasAddress, asked_after, base_of, begins_stretch, far_read, flow_of, frame_fault, count_given, asks_copy, asks_frame_read, adds_frame_word, run_of, source_of};
ghost use Rattle.x7_flow.specs.FrameAccess.{asks_frame_copy, reads_frame_data, writes_frame_data};
ghost use Rattle.x7_flow.specs.FrameMemory.{written_frames_more, memory_of};
ghost use Rattle.x7_flow.specs.FrameWrites.{CopiesLand, FrameCopies, FrameWrite, MfwAfter, TakesWrite, pair_copied, pairs_placed, with_frame_copies, with_frames};
ghost use Rattle.x7_flow.specs.FlowInWords.{base_after, frame_taken, sum_of_reads, words_written};
ghost use Rattle.x7_flow.specs.HasOnlyFramesOf.{HasOnlyFramesOf};
ghost use Rattle.x7_flow.specs.Later.{BeginsRun, MemoryGets, Start, after_load, flow_from, flow_on, has_mfw, pairs_after, pairs_alone, pairs_after_load, pairs_from, pairs_loaded, pairs_on, start_on};
ghost use Rattle.x7_flow.specs.NeedsAddress.{LacksAddress, LacksSlot, LacksSource, RunsAtAddress, WritesWord};
ghost use Rattle.x7_flow.specs.Quiet.{AreQuiet};
ghost use Rattle.x7_flow.specs.Saved.{FramesAreSaved, FramesBack, HaveOneAccessMore};
ghost use Rattle.x7_flow.specs.Settings.{Settings, TakesFrames, settings_after, settings_from, settings_of};
ghost use Rattle.x7_flow.specs.Sound.{IsSound};
ghost use Rattle.x7_flow.specs.Standing.{FramesHaveDone, FramesFit, FramesStandFor, FramesState, ReadsData, ReadsFrames, ReadsMoreThanDue, flow_read, frames_map, frames_read, without_due, words_due, write_entry};
ghost use Rattle.x7_flow.specs.Stretches.{ends_of, access_begins_stretch, memory_by_stretches};
ghost use Rattle.x7_flow.specs.WordsTaken.{HasRoomFor, NoneRefused, with_copies, with_frame_data};

/// The flow of a history is sound under the history's settings. A word more makes the written frames of a run grow as
/// `written_frames_more` says, and an access more changes the settings as `settings_after` says.
pub fn flows_go_by_settings()
    ensures sound { (part : PartData) (h : History) → IsSound part (settings_of part.idcode h) (flow_of part h) }
    ensures written_frames { (part : PartData) (base word : ℕ) (run : List ℕ) →
        written_frames part base (word ∷ run) ≡ written_frames_more part base run ++ written_frames part base run }
    ensures settings { (idcode : ℕ) (e : Entry) (h : History) → settings_of idcode (e ∷ h) ≡ settings_after idcode e.access (settings_of idcode h) }
{}

/// A later history goes on from the settings and the flow that the earlier one left. The memory of both is the earlier
/// one's, with the frames that the later one puts over it. The same holds where a FAR load stands between the two
/// (`loaded`).
pub fn later_histories_override()
    ensures settings { (idcode : ℕ) (later earlier : History) → settings_of idcode (later ++ earlier) ≡ settings_from idcode (settings_of idcode earlier) later }
    ensures flow { (part : PartData) (later earlier : History) → flow_of part (later ++ earlier) ≡ flow_from part (settings_of part.idcode earlier) (flow_of part earlier) later }
    ensures memory { (part : PartData) (later earlier : History) → MemoryGets part (later ++ earlier) earlier (pairs_after part earlier later) }
    ensures loaded { (part : PartData) (later earlier : History) (w place : ℕ) →
        MemoryGets part (later ++ after_load w place earlier) earlier (pairs_after_load part earlier w later) }
{}

/// The memory is the map of zeros overridden, stretch by stretch in order, by the stretch's written frames and its
/// copies.
pub fn stretches_override_in_order()
    ensures memory { (part : PartData) (h : History) → HaveSameFrames (memory_of part h) (memory_by_stretches part (h ∷ ends_of h)) }
{}

/// What an access asks, by its register, the command and SBITS: to begin a stretch, to write frame data, to copy, to
/// read frame data. It may still be refused.
pub fn accesses_do_what_they_ask()
    ensures begins { (idcode : ℕ) (h : History) (access : Access) → access_begins_stretch access ≡ begins_stretch (asked_after idcode h access) }
    ensures word { (idcode : ℕ) (h : History) (access : Access) → writes_frame_data idcode h access ≡ adds_frame_word (asked_after idcode h access) }
    ensures copy { (idcode : ℕ) (h : History) (access : Access) → asks_frame_copy idcode h access ≡ asks_copy (asked_after idcode h access) }
    ensures read { (idcode : ℕ) (h : History) (access : Access) → reads_frame_data h access ≡ asks_frame_read (asked_after idcode h access) }
{}

/// The base, the run, the count of words given and the source of a history can each be found by a recursion of its own.
pub fn flows_go_by_accesses()
    ensures base { (part : PartData) (e : Entry) (h : History) → base_of part (e ∷ h) ≡ base_after part e.access (far_read part h) (base_of part h) }
    ensures run { (part : PartData) (h : History) → run_of part h ≡ words_written part.idcode h }
    ensures given { (part : PartData) (h : History) → count_given part h ≡ sum_of_reads part h }
    ensures source { (part : PartData) (h : History) → source_of part h ≡ frame_taken part h }
{}

/// One access more, after a history that frames stand for with no word due: frames that did what the access asks stand
/// for the longer history. A read of frame data from an address leaves the frames as they are, and all its words, those
/// of `frames_read`, are then due. Frames of a part that stand for one history, with as many words due, are equal.
pub fn frames_stand_for_one_more()
    ensures one_more { (part : PartData) (old new : FramesState) (e : Entry) (h : History) →
        FramesHaveDone part old new h e → FramesStandFor part old h 0 → FramesStandFor part new (e ∷ h) 0 }
    ensures read { (part : PartData) (f : FramesState) (e : Entry) (h : History) (count : ℕ) →
        ReadsFrames part f h e.access count → FramesStandFor part f (e ∷ h) count }
    ensures words_due { (part : PartData) (f : FramesState) (e : Entry) (h : History) (count : ℕ) →
        ReadsFrames part f h e.access count → words_due part (e ∷ h) count ≡ frames_read part h count }
    ensures equal { (part : PartData) (f g : FramesState) (h : History) (due : ℕ) → FramesFit part f → FramesFit part g →
        FramesStandFor part f h due → FramesStandFor part g h due → f ≡ g }
{}

/// An access is refused with the fault Address exactly where it lacks an address, with Multi exactly where it lacks a
/// source. A word of frame data whose base is an address is refused with Overrun exactly where it lacks a slot, and
/// only a word of frame data comes to Overrun. Where a run has words only at an address, that stays so after an access
/// that isn't refused. A refused access changes neither the memory nor FAR as read.
pub fn refusals_have_causes()
    ensures no_address { (part : PartData) (h : History) (access : Access) (far : ℕ) → (frame_fault part h access ≡ Some (RunFault.Address far)) ↔ LacksAddress part h access far }
    ensures no_source { (part : PartData) (h : History) (access : Access) → (frame_fault part h access ≡ Some RunFault.Multi) ↔ LacksSource part h access }
    ensures no_slot { (part : PartData) (h : History) (access : Access) (w : ℕ) → WritesWord part h access w →
        (frame_fault part h access ≡ Some RunFault.Overrun) ↔ LacksSlot part h w }
    ensures only_words_overrun { (part : PartData) (h : History) (access : Access) → frame_fault part h access ≡ Some RunFault.Overrun →
        adds_frame_word (asked_after part.idcode h access) ≡ true }
    ensures runs_at_address { (part : PartData) (e : Entry) (h : History) → RunsAtAddress part h → frame_fault part h e.access ≡ None → RunsAtAddress part (e ∷ h) }
    ensures memory { (part : PartData) (e : Entry) (h : History) (fault : RunFault) → frame_fault part h e.access ≡ Some fault →
        HaveSameFrames (memory_of part (e ∷ h)) (memory_of part h) }
    ensures far { (part : PartData) (e : Entry) (h : History) (fault : RunFault) → frame_fault part h e.access ≡ Some fault →
        far_read part (e ∷ h) ≡ far_read part h }
{}

/// Many words of frame data at once leave the settings. Where they go to the memory, they make the run longer by all of
/// them, and the memory gets what they land. Where they begin a run in a history that goes on, the pairs of the frames
/// that they write come before the pairs of that history: a newer pair stands before an older one.
pub fn words_at_once_land()
    ensures settings { (idcode n : ℕ) (ws : List ℕ) (h : History) → settings_of idcode (with_frame_data n ws h) ≡ settings_of idcode h }
    ensures flow { (part : PartData) (n : ℕ) (ws : List ℕ) (h : History) → TakesFrames part h → flow_of part (with_frame_data n ws h) ≡ after_words ws (flow_of part h) }
    ensures lands { (part : PartData) (n : ℕ) (ws : List ℕ) (h : History) → TakesFrames part h →
        LandsAt part (flow_of part h) ws (memory_of part h) (memory_of part (with_frame_data n ws h)) }
    ensures pairs { (x : Start) (n : ℕ) (ws : List ℕ) (later : History) → BeginsRun x later →
        pairs_on x (with_frame_data n ws later) ≡ written_frames x.part (flow_on x later).base (onto ws []) ++ pairs_on x later }
{}

/// A history after one that went on goes on from the settings and the flow of that one, and its pairs come before the
/// pairs of that one. What a history puts after a FAR load is the same from settings that are the same but for MASK,
/// where it writes MASK before each word of CTL0. Where CMD doesn't hold MFW before the load, the memory gets what the
/// history puts there without a source.
pub fn later_histories_join()
    ensures settings { (idcode : ℕ) (s : Settings) (later middle : History) →
        settings_from idcode s (later ++ middle) ≡ settings_from idcode (settings_from idcode s middle) later }
    ensures flow { (x : Start) (later middle : History) → flow_on x (later ++ middle) ≡ flow_on (start_on x middle) later }
    ensures pairs { (x : Start) (later middle : History) → pairs_on x (later ++ middle) ≡ pairs_on (start_on x middle) later ++ pairs_on x middle }
    ensures same_but_for_mask { (part : PartData) (s t : Settings) (source : Option (List ℕ)) (w : ℕ) (h : History) → AreSameButForMask s t → WritesMaskBeforeCtl0 h →
        pairs_loaded part s source w h ≡ pairs_loaded part t source w h }
    ensures without_source { (part : PartData) (later earlier : History) (w place : ℕ) → has_mfw earlier ≡ false →
        MemoryGets part (later ++ after_load w place earlier) earlier (pairs_alone part earlier w later) }
{}

/// Where a device takes a write of whole frames after a FAR load, its frames but the last land at the slots from the
/// address of FAR on, in order; a frame that falls on a pad lands nowhere. The pairs stand the newest first, so that of
/// two for one address the later frame's wins. Where a device takes words of MFWR after a FAR load, they put the source
/// at the address of FAR.
pub fn written_frames_land_in_order()
    ensures write { (part : PartData) (earlier : History) (x : FrameWrite) → TakesWrite part earlier x →
        MemoryGets part (with_frames x earlier) earlier (reverse (pairs_placed part x)) }
    ensures copies { (part : PartData) (earlier : History) (x : FrameCopies) → CopiesLand part earlier x →
        MemoryGets part (with_frame_copies x earlier) earlier (pair_copied part x) }
{}

/// Quiet accesses put no pair and leave the memory. Where some words of a read of frame data are taken off as due, the
/// flow is that of a read of the others; where all are, it is the flow before the read.
pub fn quiet_accesses_move_no_frame()
    ensures pairs { (part : PartData) (s : Settings) (f : Flow) (later : History) → AreQuiet later → pairs_from part s f later ≡ [] }
    ensures memory { (part : PartData) (later earlier : History) → AreQuiet later → HaveSameFrames (memory_of part (later ++ earlier)) (memory_of part earlier) }
    ensures some_due { (part : PartData) (h : History) (register count due n : ℕ) → ReadsMoreThanDue h register count due →
        without_due due (flow_read part h register count n) ≡ flow_read part h register (count - due) n }
    ensures all_due { (part : PartData) (h : History) (register count n : ℕ) → ReadsData h register count → without_due count (flow_read part h register count n) ≡ flow_of part h }
{}

/// Where the part's addresses rise, a write of whole frames that a device takes after a FAR load puts the pairs of all
/// its frames but the last over the memory, also with the oldest first (`written_frames_land_in_order` has them the
/// newest first).
pub fn written_frames_are_a_plan()
    ensures { (part : PartData) (earlier : History) (x : FrameWrite) → TakesWrite part earlier x → Rises 0 (addresses_in part) →
        MemoryGets part (with_frames x earlier) earlier (pairs_placed part x) }
{}

/// MFW right after a run of whole frames under WCFG takes the last of them as the source. A FAR load and words of MFWR
/// after it leave the source and the settings.
pub fn mfw_takes_the_last_frame()
    ensures source { (part : PartData) (h : History) (c place : ℕ) (frames : List (List ℕ)) (last : List ℕ) → MfwAfter part h c frames last →
        source_of part (write_entry reg.Cmd c place ∷ h) ≡ Some last }
    ensures source_stays { (part : PartData) (earlier : History) (w place n : ℕ) (ws : List ℕ) →
        source_of part (with_copies n ws (after_load w place earlier)) ≡ source_of part earlier }
    ensures settings_stay { (part : PartData) (earlier : History) (w place n : ℕ) (ws : List ℕ) →
        settings_of part.idcode (with_copies n ws (after_load w place earlier)) ≡ settings_of part.idcode earlier }
{}

/// Where a frame of the part has at least one word, the memory of a history has frames of the part's width, at the
/// part's addresses alone.
pub fn memory_has_frames()
    ensures { (part : PartData) (h : History) → 0 < frame_words part → HasOnlyFramesOf part (memory_of part h) }
{}

/// Of words of frame data that go to the memory, with a base that is an address and slots for their frames, none is
/// refused. Where words that go to the memory begin a run, the memory gets what they land.
pub fn words_have_room()
    ensures none_refused { (part : PartData) (n : ℕ) (ws : List ℕ) (h : History) → TakesFrames part h → HasAddress part h → HasRoomFor part h ws →
        NoneRefused part reg.Fdri n ws h }
    ensures memory { (part : PartData) (n : ℕ) (ws : List ℕ) (h : History) → TakesFrames part h → run_of part h ≡ [] →
        MemoryGets part (with_frame_data n ws h) h (written_frames part (base_of part h) (onto ws [])) }
{}

/// What was saved leads later frames of the part back to the saved ones: those with the same memory; and, where the
/// saved ones stand for a history with no word due, those whose memory is that of this history with one access more.
pub fn saved_frames_lead_back()
    ensures unchanged { (part : PartData) (s : SavedState) (old new : FramesState) → FramesAreSaved part s old new →
        HaveSameFrames (frames_map part new) (frames_map part old) → FramesBack part s new old }
    ensures one_more { (part : PartData) (s : SavedState) (old new : FramesState) (h : History) (e : Entry) → FramesAreSaved part s old new →
        HaveOneAccessMore part old new h e → FramesBack part s new old }
{}
