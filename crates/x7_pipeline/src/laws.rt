//! Laws of runs, of FAR as read, of readback and of faults. The functions do nothing: their contracts are the laws.
ghost use Rattle.std.specs.Prelude.{◌≡◌, ◌≢◌, ◌+◌, ◌<◌, ◌≤◌, ◌↔◌, ℕ, true, false, reverse, min, List, [], ◌∷◌, ◌++◌, length, Contains, Option, Some, None};
ghost use Rattle.x7_part.specs.Part.{PartData, frame_words};
ghost use Rattle.x7_part.specs.AddressOrder.{addresses_in};
ghost use Rattle.x7_part.specs.Slot.{slot_after};
ghost use Rattle.x7_memory.specs.FrameMap.{FrameMap, HaveSameFrames};
ghost use Rattle.x7_memory.specs.PartFrames.{frame_at};
ghost use Rattle.x7_memory.specs.Plan.{PlanRow};
ghost use Rattle.x7_regs.specs.declared.command.Command.{Command};
ghost use Rattle.x7_pipeline.specs.declared.fault.RunFault.{RunFault};
ghost use Rattle.x7_pipeline.specs.Runs.{rest_of, frames_of, older_frames, written_frames, put_over, GetsPairs, Lands};
ghost use Rattle.x7_pipeline.specs.RunsInWords.{AreCutFrom, FarStandsAt, HasRun, Overruns, all_written, place_in, placed_from};
ghost use Rattle.x7_pipeline.specs.FarAsRead.{IsBase, is_frame_address, far_of, last_address};
ghost use Rattle.x7_pipeline.specs.Copies.{is_wcfg, is_mfw, newest_of, source_after};
ghost use Rattle.x7_pipeline.specs.Readback.{word_at, readback_at, readback_end, given_stored};
ghost use Rattle.x7_pipeline.specs.Fault.{write_fault, copy_fault, readback_fault};
ghost use Rattle.x7_pipeline.specs.RunWritten.{run_written, HasFirstRefused};
ghost use Rattle.x7_pipeline.specs.Pipeline.{PipelineData};
ghost use Rattle.x7_pipeline.specs.Saved.{ChangesNext, HaveChangedAt, pair_at};
ghost use Rattle.x7_pipeline.specs.Flow.{HoldsFlow, LandsAt, ForEachFlow, pairs_copied_by, fault_of_copy};

/// A run is its whole frames and a rest. Its frames but the newest land at the slots in order, those at pads nowhere; a
/// run without words, and one whose base is no address, writes no frame. A memory that stays the same got what no word
/// more lands. What a memory gets by pairs put first and pairs put second it gets by both at once, and what it gets by
/// some words and then by later ones it gets by all. A memory that has a run's frames over another one has the frames
/// of the longer run over that one, once it got what the words more land.
pub fn runs_land_in_slot_order()
    ensures frames { (width : ℕ) (run : List ℕ) → 0 < width → AreCutFrom width run (frames_of width run) (rest_of width run) }
    ensures order { (part : PartData) (base : ℕ) (run : List ℕ) →
        reverse (written_frames part base run) ≡ placed_from part base (reverse (older_frames (frames_of (frame_words part) run))) }
    ensures no_run_writes_nothing { (part : PartData) (base : ℕ) → written_frames part base [] ≡ [] }
    ensures no_base_writes_nothing { (part : PartData) (base : ℕ) (run : List ℕ) → is_frame_address part base ≡ false → written_frames part base run ≡ [] }
    ensures no_word_lands_nothing { (part : PartData) (base : ℕ) (run : List ℕ) (old new : FrameMap) → HaveSameFrames new old → Lands part base run run old new }
    ensures puts_join { (first second : List PlanRow) (old middle new : FrameMap) → GetsPairs first old middle → GetsPairs second middle new → GetsPairs (second ++ first) old new }
    ensures words_join { (part : PartData) (base : ℕ) (run longer longest : List ℕ) (m n o : FrameMap) →
        Lands part base run longer m n → Lands part base longer longest n o → Lands part base run longest m o }
    ensures longer_run_over { (part : PartData) (base : ℕ) (run longer : List ℕ) (under m n : FrameMap) →
        Lands part base run longer m n → HasRun part base run under m → HasRun part base longer under n }
{}

/// Words in order are all written, or they are written up to the first that is refused.
pub fn words_go_up_to_the_first_refused()
    ensures whole { (part : PartData) (base : ℕ) (run words : List ℕ) → (run_written part base run words).fault ≡ None →
        run_written part base run words ≡ all_written words run }
    ensures refused { (part : PartData) (base : ℕ) (run words : List ℕ) (fault : RunFault) → (run_written part base run words).fault ≡ Some fault →
        HasFirstRefused part base run words fault }
{}

/// MFW right after WCFG takes the run's newest whole frame, where it has one, as the source; no other two commands
/// leave a source.
pub fn mfw_takes_the_newest_frame()
    ensures taken { (part : PartData) (run : List ℕ) → source_after part Command.Wcfg Command.Mfw run ≡ newest_of (frames_of (frame_words part) run) }
    ensures not_after { (part : PartData) (old new : Command) (run : List ℕ) → is_wcfg old ≡ false → source_after part old new run ≡ None }
    ensures not_under { (part : PartData) (old new : Command) (run : List ℕ) → is_mfw new ≡ false → source_after part old new run ≡ None }
{}

/// FAR as read is the base up to the first whole frame and where the base is no address. After a whole frame, or the
/// pad frame of a readback, and `count` frames more it stands at slot `count`, from 0, of those from the base on; from
/// the limit of a readback on (`readback_end`) it is the part's last address.
pub fn far_is_read_by_slots()
    ensures loaded { (part : PartData) (base : ℕ) → far_of part base [] 0 ≡ base }
    ensures nowhere { (part : PartData) (base : ℕ) (run : List ℕ) (given : ℕ) → is_frame_address part base ≡ false → far_of part base run given ≡ base }
    ensures begun { (part : PartData) (base given : ℕ) (run : List ℕ) → length run < frame_words part → given < frame_words part → far_of part base run given ≡ base }
    ensures written { (part : PartData) (base count more : ℕ) (run : List ℕ) → IsBase part base → length run ≡ place_in part count more → more < frame_words part →
        FarStandsAt part base count (far_of part base run 0) }
    ensures read { (part : PartData) (base count more : ℕ) → IsBase part base → more < frame_words part →
        FarStandsAt part base count (far_of part base [] (place_in part count more)) }
    ensures last { (part : PartData) (base : ℕ) (run : List ℕ) (given : ℕ) → 0 < frame_words part → IsBase part base → readback_end part base ≤ given →
        far_of part base run given ≡ last_address part }
{}

/// A readback gives a frame of zeros, then the words at the slots from the base on, then zeros. The count of words
/// given is stored up to `readback_end`, from which on all words are zeros.
pub fn readbacks_give_frames_along_slots()
    ensures pad { (part : PartData) (base : ℕ) (memory : FrameMap) (i : ℕ) → i < frame_words part → readback_at part base memory i ≡ 0 }
    ensures frames { (part : PartData) (base : ℕ) (memory : FrameMap) (n i : ℕ) → i < frame_words part →
        readback_at part base memory (place_in part n i) ≡ word_at (slot_after part base n) memory i }
    ensures zeros { (part : PartData) (base : ℕ) (memory : FrameMap) (place : ℕ) → 0 < frame_words part → readback_end part base ≤ place → readback_at part base memory place ≡ 0 }
    ensures stored { (part : PartData) (base given n : ℕ) → given_stored part base (given + n) ≡ min (given_stored part base given + n) (readback_end part base) }
{}

/// The part has a frame at its addresses, and nowhere else. A word after the first of its run is refused by Overrun
/// exactly where it completes a frame for which there is no slot; no written word is refused by Multi, no copy by
/// Overrun, and a read by nothing but Address, with its base.
pub fn faults_come_where()
    ensures is_address { (part : PartData) (far : ℕ) → (is_frame_address part far ≡ true) ↔ Contains (addresses_in part) far }
    ensures overrun { (part : PartData) (base word newest : ℕ) (run : List ℕ) →
        (write_fault part base (newest ∷ run) ≡ Some RunFault.Overrun) ↔ Overruns part base (word ∷ newest ∷ run) }
    ensures no_multi_in_writes { (part : PartData) (base : ℕ) (run : List ℕ) → write_fault part base run ≢ Some RunFault.Multi }
    ensures no_overrun_in_copies { (part : PartData) (command : Command) (base : ℕ) (source : Option (List ℕ)) → copy_fault part command base source ≢ Some RunFault.Overrun }
    ensures only_address_in_reads { (part : PartData) (base given : ℕ) (fault : RunFault) → readback_fault part base given ≡ Some fault → fault ≡ RunFault.Address base }
{}

/// A refused word would change neither the written frames nor FAR as read.
pub fn refused_words_change_nothing()
    ensures written_frames { (part : PartData) (base : ℕ) (run : List ℕ) (word : ℕ) (fault : RunFault) → write_fault part base run ≡ Some fault →
        written_frames part base (word ∷ run) ≡ written_frames part base run }
    ensures far { (part : PartData) (base : ℕ) (run : List ℕ) (word given : ℕ) (fault : RunFault) → write_fault part base run ≡ Some fault →
        far_of part base (word ∷ run) given ≡ far_of part base run given }
{}

/// Two pipelines that stand for the same flow are equal.
pub fn pipelines_of_the_same_are_equal()
    ensures equal { (part : PartData) (p q : PipelineData) → ForEachFlow part p (λ f. HoldsFlow part q f → p ≡ q) }
{}

/// A saved frame leads back where the memory changed at its address alone. A copy without a fault changes the memory at
/// most where the next word or copy would put a frame, and so does a word under another command than MFW.
pub fn a_saved_frame_leads_back()
    ensures back { (part : PartData) (at : Option ℕ) (old new : List (List ℕ)) → HaveChangedAt part at old new →
        HaveSameFrames (put_over (pair_at (frame_at part old) at) (frame_at part new)) (frame_at part old) }
    ensures copy { (part : PartData) (p : PipelineData) → ForEachFlow part p (λ f. (old new : FrameMap) → fault_of_copy part f ≡ None
        → GetsPairs (pairs_copied_by f) old new → ChangesNext part p old new) }
    ensures word { (part : PartData) (p : PipelineData) → ForEachFlow part p (λ f. (w : ℕ) (old new : FrameMap) → is_mfw f.command ≡ false
        → LandsAt part f (w ∷ []) old new → ChangesNext part p old new) }
{}
