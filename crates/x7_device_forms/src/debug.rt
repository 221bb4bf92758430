//! The command `debug`.
ghost use Rattle.x7_forms.specs.ReadingStops.{StopsAmong};
ghost use Rattle.std.specs.Prelude.{◌≡◌, ◌⊎◌, Ok, Err, IfErr, IfOk, OnOk};
ghost use Rattle.x7_words.specs.Input.{AsksAtMost, InputsStay, NoInputFault};
ghost use Rattle.x7_debug.specs.Script.{IsScriptOf};
ghost use Rattle.x7_debug.specs.declared.fault.ScriptFault.{ScriptFault as FaultData};
ghost use Rattle.x7_device_forms.specs.Debug.{ReadsDebug, debug_given, debug_limits, debug_names};
ghost use Rattle.x7_forms.specs.Event.{event_of, no_memory};
ghost use Rattle.x7_outcome.specs.Outcome.{DebuggedAs, script_event, shown_of};
ghost use Rattle.x7_forms.specs.Known.{script_limit};
ghost use Rattle.x7_forms.specs.Turn.{IsLastAsked};
ghost use Rattle.x7_outcome.specs.Ready.{text_answer};
ghost use Rattle.x7_forms.specs.AskedForm as form;
ghost use Rattle.x7_forms.specs.Step.{result_by};
ghost use Rattle.x7_outcome.specs.Ending.{MakesReady};

use std::alloc::Global;
use x7_debug::{Script, ScriptFault, Session, script_of, transcript};
use x7_forms::{InputFault, Refusal, SCRIPT_LIMIT, Why, read_part, read_whole};
use x7_outcome::{Text, read_data};
use x7_part::Part;
use x7_words::Inputs;

/// What the command `debug` reads: a part, the data of a stream, and the text of a script.
#[derive(Drop)]
pub(crate) struct Given {
    part: Part,
    stream: Vec<u8>,
    script: Vec<u8>,
}

/// Why a text gives no script.
fn refusal_of<'w>(name: &'w str, fault: ScriptFault) -> Refusal<'w>
    ensures { event_of result ≡ script_event name.now fault }
{
    match fault {
        ScriptFault::Line(line) => Refusal {
            reason: Why::BadInput(InputFault::Line(line)),
            name,
        },
        ScriptFault::NoMemory => Refusal::unnamed(Why::NoMemory),
    }
}

/// Reads the part, the stream and the script, in this order.
fn read_given<'w, I: Inputs>(
    alloc: Global,
    inputs: &mut I,
    part_name: &'w str,
    stream_name: &'w str,
    script_name: &'w str,
) -> Result<Given, Refusal<'w>>
    ensures caused { ReadsDebug (I.state inputs.old) (I.state inputs.new) (debug_names part_name.now stream_name.now script_name.now)
        (result_by debug_given result) }
    ensures last_asked { IfOk result (λ given. IsLastAsked script_name.now script_limit (I.state inputs.new)) }
    ensures stops { IfErr result (λ r. StopsAmong (debug_limits (debug_names part_name.now stream_name.now script_name.now)) (I.state inputs.old)
        (I.state inputs.new) (event_of r)) }
    ensures asks { AsksAtMost (I.state inputs.old) 3 (I.state inputs.new) }
    ensures inputs { InputsStay (I.state inputs.old) (I.state inputs.new) }
    ensures no_fault { OnOk result (NoInputFault (I.state inputs.old) (I.state inputs.new)) }
{
    let part = read_part(alloc, inputs, part_name)?;
    let stream = read_data(alloc, inputs, stream_name)?;
    let script = read_whole(alloc, inputs, script_name, SCRIPT_LIMIT)?;
    Ok(Given {
        part,
        stream,
        script,
    })
}

/// The orders of a script, whose text is given up for them.
fn orders_of<'w>(alloc: Global, text: Vec<u8>, name: &'w str) -> Result<Script, Refusal<'w>>
    ensures script { IfOk result (λ script. IsScriptOf text.items (Ok script)) }
    ensures refused { IfErr result (λ r. (event_of r ≡ no_memory) ⊎ ((fault : FaultData) × (IsScriptOf text.items (Err fault) × (script_event name.now fault ≡ event_of r)))) }
{
    match script_of(alloc, &text) {
        Ok(script) => Ok(script),
        Err(fault) => Err(refusal_of(name, fault)),
    }
}

/// What a script shows of the stream of a session that stands at position 0, and as `stopped` whether the device has a
/// fault where the script ends; an obeyed IPROG is none.
fn shown<'w>(alloc: Global, session: &mut Session, script: &Script) -> Result<Text, Refusal<'w>>
    requires { session.old.at ≡ 0 }
    ensures text { IfOk result (λ text. shown_of session.old.part session.old.stream script.now ≡ text_answer text) }
    ensures refused { IfErr result (λ r. event_of r ≡ no_memory) }
{
    let text = transcript(alloc, session, script)?;
    Ok(Text {
        stopped: session.device().fault().is_some(),
        text,
    })
}

/// What a script shows of a stream on a new device of the part, and as `stopped` whether the device has a fault where
/// the script ends.
fn shown_of<'w>(
    alloc: Global,
    part: &Part,
    stream: Vec<u8>,
    script: &Script,
) -> Result<Text, Refusal<'w>>
    ensures text { IfOk result (λ text. shown_of part.now stream.items script.now ≡ text_answer text) }
    ensures refused { IfErr result (λ r. event_of r ≡ no_memory) }
{
    let Ok(mut session) = Session::new(alloc, part, stream) else {
        return Err(Refusal::unnamed(Why::NoMemory));
    };
    shown(alloc, &mut session, script)
}

/// The text of `debug` for a part, the data of a stream and the text of a script. `name` is the script's, for a
/// refusal.
fn text_of<'w>(alloc: Global, given: Given, name: &'w str) -> Result<Text, Refusal<'w>>
    ensures text { IfOk result (λ text. DebuggedAs name.now (Ok (debug_given given)) (Ok (text_answer text))) }
    ensures refused { IfErr result (λ r. (event_of r ≡ no_memory) ⊎ DebuggedAs name.now (Ok (debug_given given)) (Err (event_of r))) }
{
    let Given {
        part,
        stream,
        script,
    } = given;
    let script = orders_of(alloc, script, name)?;
    shown_of(alloc, &part, stream, &script)
}

/// The text of `debug PART STREAM SCRIPT`: what a script shows of a stream's data.
pub fn debug<'w, I: Inputs>(
    alloc: Global,
    inputs: &mut I,
    part_name: &'w str,
    stream_name: &'w str,
    script_name: &'w str,
) -> Result<Text, Refusal<'w>>
    ensures { MakesReady (form.Debug part_name.now stream_name.now script_name.now) (I.state inputs.old) (I.state inputs.new) (result_by text_answer result) }
{
    let given = read_given(alloc, inputs, part_name, stream_name, script_name)?;
    text_of(alloc, given, script_name)
}
