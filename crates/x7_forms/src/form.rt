//! The forms of the command line, in the order of docs/x7.1.
ghost use Rattle.std.specs.Prelude.{◌≡◌, map, string_bytes};
ghost use Rattle.x7_forms.specs.Form.{debug_form, form_of_strings, gen_form, image_form, number_in, one_name, plan_form, plan_read_form, play_form, two_names, word_in, form_asked};
ghost use Rattle.x7_forms.specs.AskedForm as form;

use x7_text::{number_of_decimal, word_of_hex};

/// What the words ask for, with the names as they were given.
#[derive(Clone, Copy, Drop)]
pub enum Form<'w> {
    /// `list STREAM`: the listing of a stream.
    List {
        /// The stream's name.
        stream: &'w str,
    },
    /// `asm TEXT`: the bytes that a listing or another assembly text stands for.
    Asm {
        /// The text's name.
        text: &'w str,
    },
    /// `play PART STREAM..`: the report of what one to eight streams do.
    Play {
        /// The part file's name.
        part: &'w str,
        /// The streams' names.
        streams: &'w [String],
    },
    /// `debug PART STREAM SCRIPT`: what a script shows of a stream.
    Debug {
        /// The part file's name.
        part: &'w str,
        /// The stream's name.
        stream: &'w str,
        /// The script's name.
        script: &'w str,
    },
    /// `svf PART TEXT`: what an SVF text does, played on the test access port of a new device.
    Svf {
        /// The part file's name.
        part: &'w str,
        /// The text's name.
        text: &'w str,
    },
    /// `plan full PART FRAMES`: the stream of a whole configuration.
    PlanFull {
        /// The part file's name.
        part: &'w str,
        /// The frames text's name.
        frames: &'w str,
    },
    /// `plan partial PART FRAMES`: the stream that writes the planned frames alone.
    PlanPartial {
        /// The part file's name.
        part: &'w str,
        /// The frames text's name.
        frames: &'w str,
    },
    /// `plan read PART FAR N`: the stream that reads slots back.
    PlanRead {
        /// The part file's name.
        part: &'w str,
        /// The frame address of the first slot.
        far: u32,
        /// The number of slots: frames, and the two pad frames after each row.
        count: u32,
    },
    /// `gen PART SEED`: the summary of a plan that is made from a number.
    Gen {
        /// The part file's name.
        part: &'w str,
        /// The number that the plan is made from.
        seed: u32,
    },
    /// `image GOLDEN UPDATE`: the flash image of two streams, for parts whose start address counts bytes.
    Image {
        /// The golden stream's name.
        golden: &'w str,
        /// The update stream's name.
        update: &'w str,
    },
    /// `image PART GOLDEN UPDATE`: the flash image of two streams for a part.
    ImageFor {
        /// The part file's name.
        part: &'w str,
        /// The golden stream's name.
        golden: &'w str,
        /// The update stream's name.
        update: &'w str,
    },
    /// `boot PART FLASH`: which image a device starts from a flash.
    Boot {
        /// The part file's name.
        part: &'w str,
        /// The flash's name.
        flash: &'w str,
    },
    /// `update FLASH STREAM`: a flash that is updated with a stream.
    Update {
        /// The flash's name.
        flash: &'w str,
        /// The stream's name.
        stream: &'w str,
    },
    /// `mcs IMAGE`: the Intel HEX text of a flash image.
    Mcs {
        /// The image's name.
        image: &'w str,
    },
    /// `unmcs TEXT`: the flash image of an Intel HEX text.
    Unmcs {
        /// The text's name.
        text: &'w str,
    },
}

/// `list STREAM`.
fn list_form(names: &[String]) -> Option<Form<'_>>
    ensures { form_asked result ≡ one_name form.List (map string_bytes names.now) }
{
    match names {
        [stream] => Some(Form::List {
            stream: stream.as_str(),
        }),
        _ => None,
    }
}

/// `asm TEXT`.
fn asm_form(names: &[String]) -> Option<Form<'_>>
    ensures { form_asked result ≡ one_name form.Asm (map string_bytes names.now) }
{
    match names {
        [text] => Some(Form::Asm {
            text: text.as_str(),
        }),
        _ => None,
    }
}

/// The most streams of one `play`.
const MOST_STREAMS: usize = 8;

/// `play PART STREAM..`, one to eight streams.
fn play_form(names: &[String]) -> Option<Form<'_>>
    ensures { form_asked result ≡ play_form (map string_bytes names.now) }
{
    match names {
        [part, streams @ ..] if streams.len() >= 1 && streams.len() <= MOST_STREAMS => Some(
            Form::Play {
                part: part.as_str(),
                streams,
            },
        ),
        _ => None,
    }
}

/// `debug PART STREAM SCRIPT`.
fn debug_form(names: &[String]) -> Option<Form<'_>>
    ensures { form_asked result ≡ debug_form (map string_bytes names.now) }
{
    match names {
        [part, stream, script] => Some(Form::Debug {
            part: part.as_str(),
            stream: stream.as_str(),
            script: script.as_str(),
        }),
        _ => None,
    }
}

/// `svf PART TEXT`.
fn svf_form(names: &[String]) -> Option<Form<'_>>
    ensures { form_asked result ≡ two_names form.Svf (map string_bytes names.now) }
{
    match names {
        [part, text] => Some(Form::Svf {
            part: part.as_str(),
            text: text.as_str(),
        }),
        _ => None,
    }
}

/// `plan full PART FRAMES`.
fn plan_full_form(names: &[String]) -> Option<Form<'_>>
    ensures { form_asked result ≡ two_names form.PlanFull (map string_bytes names.now) }
{
    match names {
        [part, frames] => Some(Form::PlanFull {
            part: part.as_str(),
            frames: frames.as_str(),
        }),
        _ => None,
    }
}

/// `plan partial PART FRAMES`.
fn plan_partial_form(names: &[String]) -> Option<Form<'_>>
    ensures { form_asked result ≡ two_names form.PlanPartial (map string_bytes names.now) }
{
    match names {
        [part, frames] => Some(Form::PlanPartial {
            part: part.as_str(),
            frames: frames.as_str(),
        }),
        _ => None,
    }
}

/// The word of 32 bits that eight upper-case hexadecimal digits write, and `None` for other texts.
fn word_in(digits: &str) -> Option<u32>
    ensures { result ≡ word_in digits.now }
{
    match word_of_hex(digits.as_bytes()) {
        Some(word) => Some(word),
        None => None,
    }
}

/// The number below 2^32 that decimal digits without a leading zero write, and `None` for other texts.
fn number_in(digits: &str) -> Option<u32>
    ensures { result ≡ number_in digits.now }
{
    match number_of_decimal(digits.as_bytes()) {
        Some(number) => Some(number),
        None => None,
    }
}

/// `plan read PART FAR N`.
fn plan_read_form(names: &[String]) -> Option<Form<'_>>
    ensures { form_asked result ≡ plan_read_form (map string_bytes names.now) }
{
    let [part, far, slot_count] = names else {
        return None;
    };
    let Some(far) = word_in(far.as_str()) else {
        return None;
    };
    let Some(count) = number_in(slot_count.as_str()) else {
        return None;
    };
    Some(Form::PlanRead {
        part: part.as_str(),
        far,
        count,
    })
}

/// `plan ..`, by the second word.
fn plan_form(names: &[String]) -> Option<Form<'_>>
    ensures { form_asked result ≡ plan_form (map string_bytes names.now) }
{
    let Some((kind, names)) = names.split_first() else {
        return None;
    };
    match kind.as_str() {
        "full" => plan_full_form(names),
        "partial" => plan_partial_form(names),
        "read" => plan_read_form(names),
        _ => None,
    }
}

/// `gen PART SEED`.
fn gen_form(names: &[String]) -> Option<Form<'_>>
    ensures { form_asked result ≡ gen_form (map string_bytes names.now) }
{
    let [part, seed] = names else {
        return None;
    };
    Some(Form::Gen {
        part: part.as_str(),
        seed: number_in(seed.as_str())?,
    })
}

/// `image GOLDEN UPDATE`, or `image PART GOLDEN UPDATE`.
fn image_form(names: &[String]) -> Option<Form<'_>>
    ensures { form_asked result ≡ image_form (map string_bytes names.now) }
{
    match names {
        [golden, update] => Some(Form::Image {
            golden: golden.as_str(),
            update: update.as_str(),
        }),
        [part, golden, update] => Some(Form::ImageFor {
            part: part.as_str(),
            golden: golden.as_str(),
            update: update.as_str(),
        }),
        _ => None,
    }
}

/// `boot PART FLASH`.
fn boot_form(names: &[String]) -> Option<Form<'_>>
    ensures { form_asked result ≡ two_names form.Boot (map string_bytes names.now) }
{
    match names {
        [part, flash] => Some(Form::Boot {
            part: part.as_str(),
            flash: flash.as_str(),
        }),
        _ => None,
    }
}

/// `update FLASH STREAM`.
fn update_form(names: &[String]) -> Option<Form<'_>>
    ensures { form_asked result ≡ two_names form.Update (map string_bytes names.now) }
{
    match names {
        [flash, stream] => Some(Form::Update {
            flash: flash.as_str(),
            stream: stream.as_str(),
        }),
        _ => None,
    }
}

/// `mcs IMAGE`.
fn mcs_form(names: &[String]) -> Option<Form<'_>>
    ensures { form_asked result ≡ one_name form.Mcs (map string_bytes names.now) }
{
    match names {
        [image] => Some(Form::Mcs {
            image: image.as_str(),
        }),
        _ => None,
    }
}

/// `unmcs TEXT`.
fn unmcs_form(names: &[String]) -> Option<Form<'_>>
    ensures { form_asked result ≡ one_name form.Unmcs (map string_bytes names.now) }
{
    match names {
        [text] => Some(Form::Unmcs {
            text: text.as_str(),
        }),
        _ => None,
    }
}

/// The form of the words, where they have one.
pub fn words_of(words: &Vec<String>) -> Option<Form<'_>>
    ensures { form_asked result ≡ form_of_strings words.now.items }
{
    let Some((command, names)) = words.split_first() else {
        return None;
    };
    match command.as_str() {
        "list" => list_form(names),
        "asm" => asm_form(names),
        "play" => play_form(names),
        "debug" => debug_form(names),
        "svf" => svf_form(names),
        "plan" => plan_form(names),
        "gen" => gen_form(names),
        "image" => image_form(names),
        "boot" => boot_form(names),
        "update" => update_form(names),
        "mcs" => mcs_form(names),
        "unmcs" => unmcs_form(names),
        _ => None,
    }
}
