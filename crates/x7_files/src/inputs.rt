//! Files of the system as inputs by their paths.
ghost use Rattle.std.specs.Prelude.{◌≡◌, ◌<◌, ◌≤◌, ◌+◌, [], length, None, true, false, IfErr, IfOk, OnErr};
ghost use Rattle.x7_files.specs.Agreement.{no_select};
ghost use Rattle.x7_files.specs.Inputs.{after_read, after_select, opening_of, CountsFaults, FailsToRead, ReadGives};
ghost use Rattle.x7_files.specs.Refusal.{RefusedFor};

use crate::agreement::{self, Agreement, World};
use crate::file_call::{FileCalls, no_calls, read_once};
use crate::refusal::count_refusal;
use std::fs;
use std::io::ErrorKind;
use std::marker::{Model, PhantomData};
use std::rt::Files;
use x7_ghost::Ghost;
use x7_words::{Failed, Inputs, SelectFault, ends_counted, raised};

/// Files by their paths as inputs. Each read is one read of the file. What they hold is known in hindsight: it is what
/// the map `W` says, whichever that is, as long as all that selects and reads gave agrees with it.
///
/// `Missing` is a path where no file is. A folder, missing rights and every other error is a fault. Each count stops at
/// 2^64 - 1.
#[derive(Drop)]
pub struct FileInputs<'r, R: Files, W: World> {
    rt: &'r R,
    world: PhantomData<W>,
    // whether all that was given agrees with the map; it has no bytes
    agreement: Ghost<Agreement>,
    // the open file, if any is
    file: Option<R::File>,
    // why the last select opened no file
    refusal: Option<ErrorKind>,
    // the reads that were made of files with their answers; they have no bytes
    calls: FileCalls,
    // how many selects there were
    selects: u64,
    // how many reads gave nothing
    ends: u64,
    // how many bytes were given since the last select
    given: u64,
    // how many selects and reads failed
    faults: u64,
    // how many selects found no file
    absences: u64,
}

impl<'r, R: Files, W: World> Model for FileInputs<'r, R, W> {
    ghost use Rattle.std.specs.Prelude.{◌<◌, ◌^◌, is_some};
    ghost use Rattle.x7_files.specs.Inputs.{RealInputs, unread_of};

    ghost Value = { RealInputs };

    ghost view = { λ f. record {
      agreement = f.agreement;
      selected = is_some f.file;
      rest = unread_of R.File.remaining f.file;
      refusal = f.refusal;
      calls = f.calls;
      selects = f.selects;
      ends = f.ends;
      given = f.given;
      faults = f.faults;
      absences = f.absences;
    } };

    ghost invariant = { λ f. (f.selects < 2 ^ 64) × (f.ends < 2 ^ 64) × (f.given < 2 ^ 64) × (f.faults < 2 ^ 64) × (f.absences < 2 ^ 64) };
}

impl<'r, R: Files, W: World> FileInputs<'r, R, W> {
    /// The files of the runtime, of which none is selected.
    pub fn new(rt: &'r R) -> FileInputs<'r, R, W>
        ensures { result ≡ record { agreement = no_select; selected = false; rest = None; refusal = None; calls = []; selects = 0; ends = 0; given = 0; faults = 0; absences = 0 } }
    {
        FileInputs {
            rt,
            world: PhantomData,
            agreement: agreement::at_first(),
            file: None,
            refusal: None,
            calls: no_calls(),
            selects: 0,
            ends: 0,
            given: 0,
            faults: 0,
            absences: 0,
        }
    }
}

impl<'r, R: Files, W: World> Inputs for FileInputs<'r, R, W> {
    ghost use Rattle.x7_files.specs.Inputs.{known_inputs};

    ghost state = { known_inputs W.contents };

    fn select(&mut self, name: &str) -> Result<(), SelectFault>
        ensures after { self.new ≡ after_select W.contents self.old name.now (opening_of self.new) result }
        ensures refused { IfErr result (RefusedFor self.new.refusal) }
        ensures at_most_one_more { self.new.selects ≤ self.old.selects + 1 }
        ensures ends { self.new.ends ≡ self.old.ends }
        ensures counts { CountsFaults self.old self.new }
    {
        self.file = None;
        self.refusal = None;
        self.selects = raised(self.selects);
        self.given = 0;
        match fs::open(self.rt, name) {
            Ok(file) => {
                self.file = Some(file);
                self.agreement = agreement::after_open::<W>(&self.agreement, name);
                Ok(())
            }
            Err(error) => {
                let kind = error.kind();
                self.refusal = Some(kind);
                self.agreement = agreement::after_refusal(&self.agreement, name);
                Err(count_refusal(kind, &mut self.faults, &mut self.absences))
            }
        }
    }

    fn read(&mut self, buf: &mut [u8]) -> Result<usize, Failed>
        requires { self.old.selected ≡ true }
        ensures within { IfOk result (λ n. n ≤ length buf.old) }
        ensures length { length buf.new ≡ length buf.old }
        ensures bytes { IfOk result (ReadGives self.old.rest self.new.rest buf.new) }
        ensures counted { IfOk result (λ n. self.new ≡ after_read self.old self.new.rest buf.new n) }
        ensures failed { OnErr result (FailsToRead self.old self.new) }
        ensures at_most_one_more { self.new.ends ≤ self.old.ends + 1 }
        ensures counts { CountsFaults self.old self.new }
    {
        let Some(file) = &mut self.file else {
            unreachable!()
        };
        match read_once(file, &mut self.calls, buf) {
            Ok(count) => {
                self.ends = ends_counted(count, self.ends);
                self.given = self.given.saturating_add(count as u64);
                let room = buf.len();
                self.agreement = agreement::after_read(&self.agreement, &buf[..count], room);
                Ok(count)
            }
            Err(_) => {
                self.file = None;
                self.agreement = agreement::after_fault(&self.agreement);
                self.faults = raised(self.faults);
                Err(Failed)
            }
        }
    }
}
