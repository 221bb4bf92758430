//! What planned streams do on a device at rest. The functions do nothing: their contracts are the laws.
ghost use Rattle.std.specs.Prelude.{◌≡◌, ℕ, List, []};
ghost use Rattle.x7_planner.specs.PartialStream.{AreLongest, WritesOnce, joined_bursts, pairs_in, partial_stream, bursts_of, sections_of};
ghost use Rattle.x7_effects.specs.Played.{CanPlay, DeviceAfter, PlannedPlay, PlaysBoth, PlaysFull, PlaysPartial, PlaysRead, ReadsBack, DeviceRests, bytes_with_full, bytes_with_partial, device_after, memory_with_plan};
ghost use Rattle.x7_engine.specs.Kept.{on_the_bench};
ghost use Rattle.x7_memory.specs.Plan.{AreInOrder, IsPlanFor, PlanData, PlanRow, total};
ghost use Rattle.x7_part.specs.Part.{PartData};
ghost use Rattle.x7_part.specs.Ranges.{IsPart};
ghost use Rattle.x7_planner.specs.FullStream.{full_stream};
ghost use Rattle.x7_planner.specs.ReadStream.{read_stream};
ghost use Rattle.x7_planner.specs.Fault.{CanRead};

/// On a device at rest the full stream of a plan for the part leaves the plan over zeros and ends startup with DONE,
/// GTS_CFG_B and GWE 1. The registers that no planned stream writes stay, the stream reads nothing out, there is no
/// stop, and the device is at rest again. All this holds also on a new device on the bench, before any byte.
pub fn full_streams_play()
    ensures plays { (d : DeviceAfter) (plan : PlanData) → DeviceRests d → IsPlanFor d.part plan → PlaysFull d (full_stream d.part plan) plan }
    ensures plays_new { (part : PartData) (plan : PlanData) → IsPart part → IsPlanFor part plan → PlaysFull (device_after part on_the_bench []) (full_stream part plan) plan }
{}

/// On a device at rest the partial stream of a plan for the part overrides the memory by just the plan; phase, lines
/// and control words stay, the stream reads nothing out, there is no stop, and the device is at rest again.
pub fn partial_streams_play()
    ensures { (d : DeviceAfter) (plan : PlanData) → DeviceRests d → IsPlanFor d.part plan → PlaysPartial d (partial_stream d.part plan.rows) plan }
{}

/// Of planned frames in the order of their addresses the groups and runs write each address once, with its frame, and
/// no other address. Joined in order, the runs of any planned frames are these frames; a run ends just where the next
/// frame's address isn't the one after it in the same row of the part.
pub fn partial_streams_write_once()
    ensures writes_once { (part : PartData) (rows : List PlanRow) → AreInOrder rows → WritesOnce rows (pairs_in (sections_of part rows)) }
    ensures joined { (part : PartData) (rows : List PlanRow) → joined_bursts (bursts_of part rows) ≡ rows }
    ensures longest { (part : PartData) (rows : List PlanRow) → AreLongest part (bursts_of part rows) }
{}

/// On a device at rest the read stream of n slots from an address of the part on, n at least one and no more than there
/// are, reads out a frame of zeros, and then the frame of each slot, zeros for a pad. Memory, phase, lines and control
/// words stay, there is no stop, and the device is at rest again.
pub fn read_streams_play()
    ensures { (d : DeviceAfter) (far n : ℕ) → DeviceRests d → CanRead d.part far n → PlaysRead d (read_stream d.part far n) far n }
{}

/// Streams of plans for the part, one after another on a device at rest. A read stream of slots that can be read reads
/// out, after a full stream, the plan over zeros, and after a partial one the plan over the memory before. The read
/// stream leaves the memory and the phase, and the device is at rest again. After a full stream and then a partial one
/// the memory is the later plan over the earlier one over zeros, and startup has ended.
pub fn streams_play_in_turn()
    ensures full { (p : PlannedPlay) (far n : ℕ) → CanPlay p → CanRead p.device.part far n → ReadsBack p.device (bytes_with_full p) (total p.device.part p.plan) far n }
    ensures partial { (p : PlannedPlay) (far n : ℕ) → CanPlay p → CanRead p.device.part far n → ReadsBack p.device (bytes_with_partial p) (memory_with_plan p) far n }
    ensures both { (p : PlannedPlay) (later : PlanData) → CanPlay p → IsPlanFor p.device.part later → PlaysBoth p later }
{}
