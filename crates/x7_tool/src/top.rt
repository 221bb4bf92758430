//! The call that runs a command: the form of its words is carried out.
ghost use Rattle.std.specs.Prelude.{◌≡◌, Some, false};
ghost use Rattle.x7_forms.specs.Form.{asked_by, form_of_strings};
ghost use Rattle.x7_forms.specs.Step.{result_by};
ghost use Rattle.x7_outcome.specs.Leaving.{UsesFlash};
ghost use Rattle.x7_outcome.specs.Outside.{sources};
ghost use Rattle.x7_tool.specs.Calls.{CallAnswers, CallRuns, call_of, scope};
ghost use Rattle.x7_outcome.specs.Ending.{FailsOutLast};
ghost use Rattle.x7_tool.specs.Runs.{stopped_or_event};

use std::alloc::Global;
use x7_device_forms::boot::boot;
use x7_device_forms::debug::debug;
use x7_device_forms::generate::generate;
use x7_device_forms::play::play;
use x7_device_forms::svf::svf;
use x7_device_forms::update::update;
use x7_forms::{Form, Refusal, Status, Why, words_of};
use x7_outcome::put_whole;
use x7_stream_forms::asm::asm;
use x7_stream_forms::image::{image, image_for};
use x7_stream_forms::list::list;
use x7_stream_forms::mcs::{mcs, unmcs};
use x7_stream_forms::plan::{plan_full, plan_partial, plan_read};
use x7_words::{Flash, Inputs, Sink};

/// The answer of a form that reports nothing that could stop: false, or its refusal.
fn unstopped<'w>(done: Result<(), Refusal<'w>>) -> Result<bool, Refusal<'w>>
    ensures { stopped_or_event result ≡ result_by (λ _. false) done.entry }
{
    match done {
        Ok(()) => Ok(false),
        Err(refusal) => Err(refusal),
    }
}

/// Does what a form asks for, writes its whole text, and answers whether what the text reports stopped
/// (`Status::Stopped`), or the refusal in place of it.
fn answer<'w, I: Inputs, O: Sink, F: Flash>(
    alloc: Global,
    form: Form<'w>,
    inputs: &mut I,
    flash: &mut F,
    out: &mut O,
) -> Result<bool, Refusal<'w>>
    ensures answered { CallAnswers (asked_by form.entry) (scope (I.state inputs.old) (F.state flash.old) (O.state out.old))
        (scope (I.state inputs.new) (F.state flash.new) (O.state out.new)) (stopped_or_event result) }
    ensures flash { UsesFlash (Some (asked_by form.entry)) (sources (I.state inputs.new) (F.state flash.old)) (F.state flash.new) }
    ensures failed_last { FailsOutLast (O.state out.old) (O.state out.new) (stopped_or_event result) }
{
    match form {
        Form::List { stream } => unstopped(list(alloc, inputs, out, stream)),
        Form::Asm { text } => put_whole(asm(alloc, inputs, text), out),
        Form::Play { part, streams } => put_whole(play(alloc, inputs, part, streams), out),
        Form::Debug {
            part,
            stream,
            script,
        } => put_whole(debug(alloc, inputs, part, stream, script), out),
        Form::Svf { part, text } => put_whole(svf(alloc, inputs, part, text), out),
        Form::PlanFull { part, frames } => put_whole(plan_full(alloc, inputs, part, frames), out),
        Form::PlanPartial { part, frames } => {
            put_whole(plan_partial(alloc, inputs, part, frames), out)
        }
        Form::PlanRead { part, far, count } => {
            put_whole(plan_read(alloc, inputs, part, far, count), out)
        }
        Form::Gen { part, seed } => put_whole(generate(alloc, inputs, part, seed), out),
        Form::Image { golden, update } => put_whole(image(alloc, inputs, golden, update), out),
        Form::ImageFor {
            part,
            golden,
            update,
        } => put_whole(image_for(alloc, inputs, part, golden, update), out),
        Form::Boot { part, flash: name } => put_whole(boot(alloc, inputs, flash, part, name), out),
        Form::Update {
            flash: name,
            stream,
        } => unstopped(update(alloc, inputs, flash, name, stream)),
        Form::Mcs { image } => put_whole(mcs(alloc, inputs, image), out),
        Form::Unmcs { text } => put_whole(unmcs(alloc, inputs, text), out),
    }
}

/// Runs the command that `words` ask for, those of the command line after the program's name.
///
/// The text goes to `out`, that of `list` while the stream is read, and any other once it is ready; where a command has
/// no whole text, one line goes to `err`.
///
/// Power may be lost at any moment. Of a flash that gives what it holds, a file of the system too, what is found then is
/// what it held, or what an update may leave of it. Where the stream is known, the flash can be updated, and the golden
/// stream, whoever made it, starts after an erased first sector and ends at the update's place or before it, a boot from
/// what is found is the one before the update, or starts as the golden stream does, or is the one after the update.
///
/// The full stream of a plan is such a golden stream (`x7_recovery::full_streams_start`).
pub fn run<I: Inputs, O: Sink, E: Sink, F: Flash>(
    alloc: Global,
    words: &Vec<String>,
    inputs: &mut I,
    flash: &mut F,
    out: &mut O,
    err: &mut E,
) -> Status
    ensures ran { CallRuns (form_of_strings words.now.items) (call_of (I.state, F.state, O.state, E.state)
        (inputs.old, flash.old, out.old, err.old) (inputs.new, flash.new, out.new, err.new)) result }
{
    let form = match words_of(words) {
        Some(form) => form,
        None => return Refusal::unnamed(Why::Usage).tell(err),
    };
    match answer(alloc, form, inputs, flash, out) {
        Ok(stopped) => Status::of_text(stopped),
        Err(refusal) => refusal.tell(err),
    }
}
