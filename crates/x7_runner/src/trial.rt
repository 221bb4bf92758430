//! All runs of one case.
use crate::command::Command;
use crate::comparing::{all_of, compare, compare_run};
use crate::expected::Expected;
use crate::failing::{Blamed, compare_failed};
use crate::given::{Given, Object};
use crate::named::Named;
use crate::notes::Notes;
use crate::running::{Ending, Variation, run_command};
use std::alloc::Global;
use std::mem::swap;

/// The most calls of an object that fail in turn.
const MOST_CALLS: u32 = 1_000_000;

/// The greatest status of a run that went through, and so read all inputs that its words name.
const READ_ALL: u8 = 1;

/// The limits of one read, in bytes, where a case gives none: one run without a limit.
const NO_LIMIT: [u32; 1] = [u32::MAX];

/// A case, by the lines taken so far.
pub(crate) struct Case {
    /// The name, as the notes on its runs have it.
    pub(crate) name: String,
    /// What its runs are given.
    pub(crate) given: Given,
    /// What they should come to.
    pub(crate) expected: Expected,
}

impl Drop for Case {
    fn drop(self) {
        let Case {
            name: _,
            given: _,
            expected: _,
        } = self;
    }
}

/// A case and the inputs that it shares with others of its file, the command, and what its runs left.
#[derive(Drop)]
pub(crate) struct Trial<'a, C: Command> {
    pub(crate) command: &'a C,
    pub(crate) alloc: Global,
    pub(crate) shared: &'a [Named],
    pub(crate) case: &'a Case,
    pub(crate) notes: &'a mut Notes,
    /// What is kept of the case: the run without a failing call, beside which others stand, or, where the case names
    /// the calls that fail, the last run with one of them.
    pub(crate) kept: &'a mut Ending,
    /// What the last run left, until it is kept.
    pub(crate) came: &'a mut Ending,
}

impl<'a, C: Command> Trial<'a, C> {
    /// Runs the command once; the notes that follow are on this run.
    fn run_once(&mut self, variation: &Variation) {
        let given = &self.case.given;
        self.notes.begin(self.case.name.as_str());
        variation.put_name(given, self.notes);
        let done = run_command(
            self.command,
            self.alloc,
            self.shared,
            given,
            variation,
            self.came,
        );
        self.notes.take(done);
    }

    /// One run, compared.
    fn run_compared(&mut self, variation: &Variation) {
        self.run_once(variation);
        let case = self.case;
        compare(
            self.notes,
            &case.given,
            &case.expected,
            variation,
            self.came,
        );
    }

    /// A run that is kept.
    fn run_kept(&mut self, variation: &Variation) {
        self.run_compared(variation);
        swap(self.kept, self.came);
    }

    /// One run in which a call fails, beside the whole run. True where no later call is to fail: the run had no such
    /// call, or memory lacks.
    fn run_call(&mut self, variation: &Variation, blamed: &mut Blamed) -> bool {
        self.run_once(variation);
        let object = variation.object;
        if self.came.is_spared {
            compare_run(self.notes, all_of(self.kept), self.came);
        } else {
            let words = &self.case.given.words;
            compare_failed(self.notes, words, blamed, object, self.kept, self.came);
        }
        self.came.is_spared || self.notes.lacks_memory
    }

    /// Runs with each call of the object failing in turn, until a run has no such call, or for `MOST_CALLS` runs, after
    /// which a note says that there was no end.
    fn run_calls(&mut self, variation: &Variation, blamed: &mut Blamed) {
        let mut variation = *variation;
        for call in 1..=MOST_CALLS {
            variation.call = call;
            if self.run_call(&variation, blamed) {
                return;
            }
        }
        self.notes.put("fails_each", "an end", "none");
    }

    /// Runs with each call of the object failing in turn. Where the whole run reads all that the words name, each of
    /// these inputs fails in one of them.
    fn run_each(&mut self, variation: &Variation) {
        let mut blamed = Blamed::new(self.alloc);
        self.run_calls(variation, &mut blamed);
        if matches!(variation.object, Object::In) && self.kept.status <= READ_ALL {
            let given = &self.case.given;
            blamed.compare_all(self.notes, &given.words, self.shared);
            blamed.compare_all(self.notes, &given.words, &given.inputs);
        }
    }

    /// The run without a failing call, and those that stand beside it: in pieces of other sizes, which should come to
    /// the same, and with the calls of objects failing in turn.
    fn run_whole(&mut self, variation: &Variation) {
        self.run_kept(variation);
        let mut variation = *variation;
        for object in &self.case.given.each {
            variation.object = *object;
            self.run_each(&variation);
        }
        for piece in &self.case.given.alike {
            variation.piece = *piece;
            self.run_once(&variation);
            compare_run(self.notes, all_of(self.kept), self.came);
        }
    }

    /// A run in which a call fails, and, where the case lets `err` fail in turn, a second one in which also the first
    /// call of `err` fails.
    fn run_failing(&mut self, variation: &Variation) {
        self.run_kept(variation);
        let mut variation = *variation;
        variation.is_mute = true;
        for object in &self.case.given.each {
            if let Object::Err = object {
                self.run_compared(&variation);
            }
        }
    }

    /// All runs with the reads and the damage of one variation.
    fn run_piece(&mut self, damage: u32, piece: u32) {
        let mut variation = Variation::new(damage, piece);
        if self.case.given.failing.is_empty() {
            self.run_whole(&variation);
        }
        for failing in &self.case.given.failing {
            variation.object = failing.object;
            variation.call = failing.call;
            self.run_failing(&variation);
        }
    }

    /// All runs of the case: for each damage of an input those with each limit of a read.
    pub(crate) fn run(&mut self) {
        let given = &self.case.given;
        let pieces: &[u32] = if given.pieces.is_empty() {
            &NO_LIMIT
        } else {
            &given.pieces
        };
        for damage in given.damaged.from..given.damaged.to {
            for piece in pieces {
                self.run_piece(damage, *piece);
            }
        }
    }
}
