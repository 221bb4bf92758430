//! The command `gen`: a plan that is made from a number, its stream played on a new device, and what came of it.
ghost use Rattle.std.specs.Prelude.{◌≡◌, ◌++◌, ◌%◌, ◌^◌, ℕ, List, [], length, IfOk, IfErr, OnOk, unwrap_or, Some, ◌+◌};
ghost use Rattle.std.specs.List.{sum};
ghost use Rattle.x7_part.specs.AddressOrder.{addresses_in};
ghost use Rattle.x7_part.specs.Part.{PartData, frame_words};
ghost use Rattle.x7_part.specs.Ranges.{IsPart};
ghost use Rattle.x7_memory.specs.PartFrames.{AreFramesOf, frame_at};
ghost use Rattle.x7_memory.specs.Plan.{AreAddressed, IsPlan};
ghost use Rattle.x7_planner.specs.FullStream.{full_stream};
ghost use Rattle.x7_planner.specs.FullStreamPieces.{HasGiven};
ghost use Rattle.x7_device_forms.specs.Summary.{TookStream};
ghost use Rattle.x7_outcome.specs.Generate.{count_line, counted, gen_text, gen_line, sum_line, plan_of_seed, next_number, planned_summary, played_summary, row_by, summary_text, words_sum};
ghost use Rattle.x7_forms.specs.Event.{event_of, no_memory};
ghost use Rattle.x7_outcome.specs.Outcome.{gen_answer};
ghost use Rattle.x7_outcome.specs.Ending.{MakesReady};
ghost use Rattle.x7_forms.specs.AskedForm as form;
ghost use Rattle.x7_playing.specs.Playing.{HasPlayed};
ghost use Rattle.x7_outcome.specs.Ready.{bytes_answer};
ghost use Rattle.x7_forms.specs.Step.{result_by};

use std::alloc::Global;
use x7_forms::{Refusal, read_part};
use x7_memory::{Draft, Memory, Plan};
use x7_part::Part;
use x7_planner::FullStream;
use x7_playing::Player;
use x7_text::{hex_of_word, put_number, put_text};
use x7_words::{Inputs, NoMemory};

/// The least number with which a frame is planned: with a smaller one it is not.
const LEAST_PLANNED: u32 = 1 << 31;

/// The number after `number` in the sequence that a seed begins: a linear congruence modulo 2^32 (this project's
/// choice).
fn next_number(number: u32) -> u32
    ensures { result ≡ next_number number }
{
    number.wrapping_mul(1_664_525).wrapping_add(1_013_904_223)
}

/// Makes the words of a frame count up from the word `first`, modulo 2^32.
fn count_up(frame: &mut Vec<u32>, first: u32)
    ensures words { frame.new.items ≡ counted (length frame.old.items) first }
    ensures room { length frame.new.items ≡ length frame.old.items }
{
    let mut word = first;
    for i in 0..frame.len() {
        frame[i] = word;
        word = word.wrapping_add(1);
    }
}

/// Adds the frame that `number` plans for the address `far`, or nothing where it plans none. `frame` is room for the
/// words of a frame.
fn push_row(draft: &mut Draft, frame: &mut Vec<u32>, far: u32, number: u32) -> Result<(), NoMemory>
    requires width { length frame.old.items ≡ draft.old.width }
    ensures added { OnOk result (draft.new.rows ≡ draft.old.rows ++ row_by draft.old.width far number) }
    ensures width { draft.new.width ≡ draft.old.width }
    ensures room { length frame.new.items ≡ length frame.old.items }
{
    if number < LEAST_PLANNED {
        return Ok(());
    }
    count_up(frame, number);
    draft.push(far, frame)
}

/// The plan of a seed.
fn plan_of_seed(alloc: Global, part: &Part, seed: u32) -> Result<Plan, NoMemory>
    ensures { IfOk result (λ plan. plan ≡ plan_of_seed part.now seed) }
{
    let Ok(mut frame) = vec![in alloc; 0u32; part.words() as usize] else {
        return Err(NoMemory);
    };
    let mut draft = Draft::with_room(alloc, part.words(), part.frames() as usize)?;
    let mut number = seed;
    for rank in 0..part.frames() {
        let Some(far) = part.address(rank) else {
            unreachable!()
        };
        number = next_number(number);
        push_row(&mut draft, &mut frame, far, number)?;
    }
    Ok(draft.finish())
}

/// The sum of words modulo 2^32.
fn sum_of(words: &[u32]) -> u32
    ensures { result ≡ sum words.now % 2 ^ 32 }
{
    let mut total: u32 = 0;
    for word in words {
        total = total.wrapping_add(*word);
    }
    total
}

/// The sum of the words of the frame at the address `far`, modulo 2^32; 0 where there is no frame.
fn frame_sum(part: &Part, memory: &Memory, far: u32) -> u32
    requires { AreFramesOf part.now memory.now }
    ensures { result ≡ sum (unwrap_or (frame_at part.now memory.now far) []) % 2 ^ 32 }
{
    match memory.frame(part, far) {
        Some(words) => sum_of(words),
        None => 0,
    }
}

/// The sum of all words of a memory, modulo 2^32.
fn memory_sum(part: &Part, memory: &Memory) -> u32
    requires { AreFramesOf part.now memory.now }
    ensures { result ≡ words_sum (frame_at part.now memory.now) (addresses_in part.now) % 2 ^ 32 }
{
    let mut total: u32 = 0;
    for rank in 0..part.frames() {
        let Some(far) = part.address(rank) else {
            unreachable!()
        };
        total = total.wrapping_add(frame_sum(part, memory, far));
    }
    total
}

/// Plays a stream piece by piece, and answers how many bytes the stream has. `piece` is room for a piece.
fn play_all(
    stream: FullStream<'_>,
    player: &mut Player,
    piece: &mut Vec<u8>,
) -> Result<u64, NoMemory>
    requires given { HasGiven stream [] }
    requires played { HasPlayed stream.part [] player.old }
    requires part { IsPart stream.part }
    requires plan { IsPlan stream.plan }
    requires width { stream.plan.width ≡ frame_words stream.part }
    ensures played { OnOk result (HasPlayed stream.entry.part (full_stream stream.entry.part stream.entry.plan) player.new) }
    ensures size { IfOk result (λ size. size ≡ length (full_stream stream.entry.part stream.entry.plan)) }
{
    let mut stream = stream;
    let mut size = 0;
    piece.clear();
    while stream.put_next(piece)? {
        player.play(piece)?;
        size += piece.len() as u64;
        piece.clear();
    }
    Ok(size)
}

/// Plays the full stream of a plan at the part's addresses on a new device, and answers how many bytes the stream has.
/// No more than a piece of the stream is held.
fn play_full(alloc: Global, part: &Part, plan: &Plan, player: &mut Player) -> Result<u64, NoMemory>
    requires width { plan.now.width ≡ frame_words part.now }
    requires addresses { AreAddressed part.now plan.now.rows }
    requires nothing_played { HasPlayed part.now [] player.old }
    ensures played { OnOk result (HasPlayed part.now (full_stream part.now plan.now) player.new) }
    ensures size { IfOk result (λ size. size ≡ length (full_stream part.now plan.now)) }
{
    // for the proof alone: a part has a frame, and a plan has no more rows than its part has frames
    let _frames = part.frames();
    let _rows = plan.len();
    let Ok(stream) = FullStream::new(part, plan) else {
        unreachable!()
    };
    let mut piece = Vec::new(alloc);
    play_all(stream, player, &mut piece)
}

/// What a summary says of a stream that was played.
#[derive(Clone, Copy)]
struct Summary {
    /// How many frames are planned.
    planned: u64,
    /// How many bytes the stream has.
    size: u64,
    /// The phase of startup after the stream.
    phase: u8,
    /// The sum of all words of the memory after the stream, modulo 2^32.
    sum: u32,
}

/// Appends the line of a number: its key, which ends with a blank, and its decimal digits.
fn put_count(text: &mut Vec<u8>, key: &[u8], number: u64) -> Result<(), NoMemory>
    ensures { OnOk result (text.new.items ≡ text.old.items ++ count_line key.now number) }
{
    put_text(text, key)?;
    put_number(text, number)
}

/// Appends the first line of the text of `gen`: the name of the part, and the seed.
fn put_gen_line(text: &mut Vec<u8>, name: &str, seed: u32) -> Result<(), NoMemory>
    ensures { OnOk result (text.new.items ≡ text.old.items ++ gen_line name.now seed) }
{
    put_text(text, b"gen ")?;
    put_text(text, name.as_bytes())?;
    put_text(text, b" ")?;
    put_number(text, u64::from(seed))
}

/// Appends the line of a sum, a word of 32 bits.
fn put_sum(text: &mut Vec<u8>, sum: u32) -> Result<(), NoMemory>
    ensures { OnOk result (text.new.items ≡ text.old.items ++ sum_line sum) }
{
    put_text(text, b"sum ")?;
    put_text(text, &hex_of_word(sum))?;
    put_text(text, b"\n")
}

/// Appends a summary.
fn put_summary(text: &mut Vec<u8>, name: &str, seed: u32, summary: Summary) -> Result<(), NoMemory>
    ensures { OnOk result (text.new.items ≡ text.old.items ++ summary_text name.now seed
        (record { planned = summary.planned; size = summary.size; phase = summary.phase; sum = summary.sum })) }
{
    put_gen_line(text, name, seed)?;
    put_count(text, b"planned ", summary.planned)?;
    put_count(text, b"stream ", summary.size)?;
    put_count(text, b"phase ", u64::from(summary.phase))?;
    put_sum(text, summary.sum)
}

/// The summary of a stream of `size` bytes that was played, whose plan has `planned` frames.
fn summarized(
    alloc: Global,
    seed: u32,
    planned: usize,
    player: &Player,
    size: u64,
) -> Result<Vec<u8>, NoMemory>
    ensures { IfOk result (λ text. (part : PartData) (stream : List ℕ) → TookStream part stream player.now size
        → text.items ≡ played_summary part seed planned stream) }
{
    let device = &player.device;
    let part = device.part();
    let summary = Summary {
        planned: planned as u64,
        size,
        phase: device.state().phase,
        sum: memory_sum(part, device.memory()),
    };
    let mut text = Vec::new(alloc);
    put_summary(&mut text, part.name(), seed, summary)?;
    Ok(text)
}

/// The summary of the full stream of the plan of a seed, played on a new device.
fn summary_of_plan(alloc: Global, part: &Part, seed: u32, plan: &Plan) -> Result<Vec<u8>, NoMemory>
    requires part { IsPart part.now }
    requires width { plan.now.width ≡ frame_words part.now }
    requires addresses { AreAddressed part.now plan.now.rows }
    ensures { IfOk result (λ text. text.items ≡ played_summary part.now seed (length plan.now.rows) (full_stream part.now plan.now)) }
{
    let Ok(mut player) = Player::new(alloc, part) else {
        return Err(NoMemory);
    };
    let size = play_full(alloc, part, plan, &mut player)?;
    summarized(alloc, seed, plan.len(), &player, size)
}

/// The summary of the full stream of a seed's plan, played on a new device (this project's choice). Its lines are
/// `gen NAME SEED`; `planned N`, the count of planned frames; and `stream N`, how many bytes the stream has. Then come
/// `phase P`, the phase of startup after it, and `sum W`, the sum of all words of the memory modulo 2^32, in eight
/// hexadecimal digits.
pub fn gen_text(alloc: Global, part: &Part, seed: u32) -> Result<Vec<u8>, NoMemory>
    ensures text { IfOk result (λ text. text.items ≡ gen_text part.now seed) }
    ensures planned { IfOk result (λ text. text.items ≡ planned_summary part.now seed) }
{
    let plan = plan_of_seed(alloc, part, seed)?;
    // for the proof alone: a part has a frame
    let _frames = part.frames();
    summary_of_plan(alloc, part, seed, &plan)
}

/// The text of `gen` for a part and a seed, or that memory was wanting.
fn summary_of<'w>(alloc: Global, part: &Part, seed: u32) -> Result<Vec<u8>, Refusal<'w>>
    ensures text { IfOk result (λ text. bytes_answer text ≡ gen_answer part.now seed) }
    ensures refused { IfErr result (λ r. event_of r ≡ no_memory) }
{
    Ok(gen_text(alloc, part, seed)?)
}

/// The text of `gen PART SEED`.
pub fn generate<'w, I: Inputs>(
    alloc: Global,
    inputs: &mut I,
    part_name: &'w str,
    seed: u32,
) -> Result<Vec<u8>, Refusal<'w>>
    ensures { MakesReady (form.Gen part_name.now seed) (I.state inputs.old) (I.state inputs.new) (result_by bytes_answer result) }
{
    let part = read_part(alloc, inputs, part_name)?;
    summary_of(alloc, &part, seed)
}
