//! The command `svf`.
ghost use Rattle.x7_forms.specs.ReadingStops.{StopsAmong};
ghost use Rattle.std.specs.Prelude.{◌≡◌, ◌⊎◌, ◌≤◌, ◌||◌, Ok, Err, IfErr, IfOk, OnOk, is_some, vec_len};
ghost use Rattle.x7_words.specs.Input.{AsksAtMost, InputsStay, NoInputFault};
ghost use Rattle.x7_forms.specs.Event.{event_of, no_memory};
ghost use Rattle.x7_forms.specs.Step.{result_by};
ghost use Rattle.x7_forms.specs.AskedForm as form;
ghost use Rattle.x7_outcome.specs.Ending.{MakesReady};
ghost use Rattle.x7_svf.specs.Svf.{IsSvfOf};
ghost use Rattle.x7_svf.specs.declared.fault.SvfFault.{SvfFault as FaultData};
ghost use Rattle.x7_outcome.specs.Outcome.{PlayedSvf, svf_answer, svf_event};
ghost use Rattle.x7_forms.specs.Known.{text_limit};
ghost use Rattle.x7_forms.specs.Turn.{IsLastAsked};
ghost use Rattle.x7_outcome.specs.Play.{play_answer};
ghost use Rattle.x7_device_forms.specs.Svf.{ReadsSvf, svf_given, svf_limits};

use std::alloc::Global;
use x7_engine::{Device, Fault};
use x7_forms::{InputFault, Refusal, TEXT_LIMIT, Why, read_part, read_whole};
use x7_jtag::{Differ, Tap, play_line, play_svf};
use x7_part::Part;
use x7_report::PlayText;
use x7_svf::{Svf, SvfFault, svf_from};
use x7_words::{Inputs, NoMemory};

/// What the command `svf` reads: a part, and the bytes of an SVF text.
#[derive(Drop)]
pub(crate) struct Given {
    part: Part,
    text: Vec<u8>,
}

/// Why a text gives no statements.
fn refusal_of<'w>(name: &'w str, fault: SvfFault) -> Refusal<'w>
    ensures { event_of result ≡ svf_event name.now fault }
{
    match fault {
        SvfFault::Line(line) => Refusal {
            reason: Why::BadInput(InputFault::Line(line)),
            name,
        },
        SvfFault::NoMemory => Refusal::unnamed(Why::NoMemory),
    }
}

/// Reads the part and the SVF text, in this order.
fn read_given<'w, I: Inputs>(
    alloc: Global,
    inputs: &mut I,
    part_name: &'w str,
    text_name: &'w str,
) -> Result<Given, Refusal<'w>>
    ensures caused { ReadsSvf (I.state inputs.old) (I.state inputs.new) part_name.now text_name.now (result_by svf_given result) }
    ensures last_asked { IfOk result (λ given. IsLastAsked text_name.now text_limit (I.state inputs.new)) }
    ensures stops { IfErr result (λ r. StopsAmong (svf_limits part_name.now text_name.now) (I.state inputs.old) (I.state inputs.new) (event_of r)) }
    ensures within { IfOk result (λ given. vec_len given.text ≤ text_limit) }
    ensures asks { AsksAtMost (I.state inputs.old) 2 (I.state inputs.new) }
    ensures inputs { InputsStay (I.state inputs.old) (I.state inputs.new) }
    ensures no_fault { OnOk result (NoInputFault (I.state inputs.old) (I.state inputs.new)) }
{
    let part = read_part(alloc, inputs, part_name)?;
    let text = read_whole(alloc, inputs, text_name, TEXT_LIMIT)?;
    Ok(Given { part, text })
}

/// The statements of a text, which is given up for them.
fn statements_of<'w>(alloc: Global, text: Vec<u8>, name: &'w str) -> Result<Svf, Refusal<'w>>
    requires { vec_len text ≤ text_limit }
    ensures statements { IfOk result (λ svf. IsSvfOf text.items (Ok svf)) }
    ensures refused { IfErr result (λ r. (event_of r ≡ no_memory) ⊎ ((fault : FaultData) × (IsSvfOf text.items (Err fault) × (svf_event name.now fault ≡ event_of r)))) }
{
    match svf_from(alloc, text) {
        Ok(svf) => Ok(svf),
        Err(fault) => Err(refusal_of(name, fault)),
    }
}

/// Whether what is reported stopped: a scan differed, or the device has a fault.
fn has_stopped(differ: Option<Differ>, fault: Option<Fault>) -> bool
    ensures { result ≡ (is_some differ || is_some fault) }
{
    differ.is_some() || fault.is_some()
}

/// The text of statements that are played on a new device of the part, ready to be written: the line of the first scan
/// that differs, or that none does, and the report of the device.
fn played_text(alloc: Global, part: &Part, svf: &Svf) -> Result<PlayText, NoMemory>
    ensures { IfOk result (λ text. play_answer text ≡ svf_answer part.now svf.now) }
{
    let mut device = Device::new(alloc, part)?;
    let mut tap = Tap::new();
    let differ = play_svf(svf, &mut tap, &mut device);
    let stopped = has_stopped(differ, device.fault());
    let mut line = Vec::new(alloc);
    play_line(&mut line, differ)?;
    PlayText::new(alloc, line, device, &[], stopped)
}

/// The text of `svf` for a part and an SVF text. `name` is that of the text, for a refusal.
fn text_of<'w>(alloc: Global, given: Given, name: &'w str) -> Result<PlayText, Refusal<'w>>
    requires { vec_len given.text ≤ text_limit }
    ensures text { IfOk result (λ text. PlayedSvf name.now (Ok (svf_given given)) (Ok (play_answer text))) }
    ensures refused { IfErr result (λ r. (event_of r ≡ no_memory) ⊎ PlayedSvf name.now (Ok (svf_given given)) (Err (event_of r))) }
{
    let Given { part, text } = given;
    let svf = statements_of(alloc, text, name)?;
    Ok(played_text(alloc, &part, &svf)?)
}

/// The text of `svf PART TEXT`: what the SVF text does, played on the test access port of a new device.
pub fn svf<'w, I: Inputs>(
    alloc: Global,
    inputs: &mut I,
    part_name: &'w str,
    text_name: &'w str,
) -> Result<PlayText, Refusal<'w>>
    ensures { MakesReady (form.Svf part_name.now text_name.now) (I.state inputs.old) (I.state inputs.new) (result_by play_answer result) }
{
    let given = read_given(alloc, inputs, part_name, text_name)?;
    text_of(alloc, given, text_name)
}
