//! Laws of maps, memories and plans, for the proofs of crates above. The functions do nothing: their contracts are the
//! laws.
ghost use Rattle.std.specs.Prelude.{◌≡◌, ℕ, ◌<◌, ◌++◌, ◌==◌, ◌↔◌, if◌then◌else◌, List, length, replicate, slice_index_or, Contains, IsPermutation, Some, None};
ghost use Rattle.x7_part.specs.AddressOrder.{addresses_in};
ghost use Rattle.x7_part.specs.Part.{PartData, frame_words};
ghost use Rattle.x7_memory.specs.FrameMap.{FrameMap, override, no_frames, single_frame, AreDisjoint, HaveSameFrames};
ghost use Rattle.x7_memory.specs.PartFrames.{frame_at, zeros, AreFramesOf};
ghost use Rattle.x7_memory.specs.Plan.{PlanRow, PlanData, PlansEach, IsPlan, AreInOrder, AreApart, planned, planned_addresses, total};

/// One map over another. Over a map, a first map and then a second are as the second over the first; two that share no
/// address may change places; and a map put over it twice is as that map put over it once. The empty map changes
/// nothing, and maps with the same frames may stand for one another. A map that differs from another by one frame is
/// the other with this frame alone over it.
pub fn maps_override_by_address()
    ensures twice { (m p q : FrameMap) → HaveSameFrames (override (override m p) q) (override m (override p q)) }
    ensures disjoint { (m p q : FrameMap) → AreDisjoint p q → HaveSameFrames (override (override m p) q) (override (override m q) p) }
    ensures again { (m p : FrameMap) → HaveSameFrames (override (override m p) p) (override m p) }
    ensures nothing { (m : FrameMap) → HaveSameFrames (override m no_frames) m }
    ensures same { (m n p q : FrameMap) → HaveSameFrames m n → HaveSameFrames p q → HaveSameFrames (override m p) (override n q) }
    ensures one_frame { (m n : FrameMap) (far : ℕ) (words : List ℕ) → ((a : ℕ) → n a ≡ (if a == far then Some words else m a)) → HaveSameFrames n (override m (single_frame far words)) }
{}

/// A memory of a part as a map. What is no address of the part has no frame, and the map of zeros has a frame of zeros
/// at each address of the part. Memories of the part whose maps have the same frames are equal.
pub fn memories_are_maps()
    ensures outside { (part : PartData) (frames : List (List ℕ)) (far : ℕ) → (¬ Contains (addresses_in part) far) → frame_at part frames far ≡ None }
    ensures zeros { (part : PartData) (far : ℕ) → Contains (addresses_in part) far → zeros part far ≡ Some (replicate (frame_words part) 0) }
    ensures equal { (part : PartData) (m n : List (List ℕ)) → AreFramesOf part m → AreFramesOf part n → HaveSameFrames (frame_at part m) (frame_at part n) → m ≡ n }
{}

/// A plan is a map: at the address of a row it has the row's words, and rows have no frame exactly at what they don't
/// name. The map of rows and then others is the map of the first rows over the map of the others; where the rows all
/// together are in order, the two maps share no address. Rows in another order are the same map, where no two have one
/// address. The total of a plan is the plan over zeros: what is planned at the addresses that it names, zeros at the
/// other addresses of the part. A plan that names each address of the part, put over any frames, is its total.
pub fn plans_are_maps()
    ensures rows { (plan : PlanData) (k : ℕ) (d : PlanRow) → IsPlan plan → k < length plan.rows →
        planned plan.rows (slice_index_or plan.rows k d).far ≡ Some (slice_index_or plan.rows k d).words }
    ensures named { (rows : List PlanRow) (far : ℕ) → (planned rows far ≡ None) ↔ (¬ Contains (planned_addresses rows) far) }
    ensures joined { (before after : List PlanRow) → HaveSameFrames (planned (before ++ after)) (override (planned after) (planned before)) }
    ensures apart { (before after : List PlanRow) → AreInOrder (before ++ after) → AreDisjoint (planned before) (planned after) }
    ensures permuted { (rows others : List PlanRow) → IsPermutation rows others → AreApart rows → HaveSameFrames (planned rows) (planned others) }
    ensures total { (part : PartData) (plan : PlanData) → HaveSameFrames (total part plan) (override (zeros part) (planned plan.rows)) }
    ensures unplanned { (part : PartData) (plan : PlanData) (far : ℕ) → (¬ Contains (planned_addresses plan.rows) far) → total part plan far ≡ zeros part far }
    ensures planned { (part : PartData) (plan : PlanData) (far : ℕ) → Contains (planned_addresses plan.rows) far → total part plan far ≡ planned plan.rows far }
    ensures whole { (part : PartData) (plan : PlanData) (frames : List (List ℕ)) → PlansEach part plan →
        HaveSameFrames (override (frame_at part frames) (planned plan.rows)) (total part plan) }
{}
