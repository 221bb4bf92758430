//! The text of a flash's bytes, written block by block in one buffer.
ghost use Rattle.std.specs.Prelude.{◌≡◌, ℕ, List, ◌≤◌, length, vec_capacity, IfOk, OnOk, OnErr};
ghost use Rattle.x7_text.specs.Row.{rows};
ghost use Rattle.x7_words.specs.Sink.{SinkFaultsNeverFall, PutsAll, PutsSome, SinkFails};
ghost use Rattle.x7_words.specs.Flash.{flash_limit};
ghost use Rattle.x7_mcs.specs.Text.{block_room, mcs_text, row_lines, row_size};

use crate::record::BLOCK_SIZE;
use crate::row::ROW_LINE_SIZE;
use crate::text::{BASE_LINE_SIZE, END_LINE, put_rows};
use std::alloc::Global;
use std::marker::Model;
use x7_words::{Failed, NoMemory, Sink, write_all};

/// The bytes that the lines of a block take at most: four for each of its bytes, a record 04 and a row's line.
const BLOCK_ROOM: usize = 4 * BLOCK_SIZE as usize + BASE_LINE_SIZE + ROW_LINE_SIZE;

/// Writes the lines of a flash's rows, those of a block at a time. It takes no memory.
fn write_rows<S: Sink>(out: &mut S, flash: &[u8], block: &mut Vec<u8>) -> Result<(), Failed>
    requires flash { length flash.now ≤ flash_limit }
    requires room { block_room ≤ vec_capacity block.old }
    ensures whole { OnOk result (PutsAll (S.state out.old) (row_lines 0 (rows row_size flash.now)) (S.state out.new)) }
    ensures prefix { PutsSome (S.state out.old) (row_lines 0 (rows row_size flash.now)) (S.state out.new) }
    ensures failed { OnErr result (SinkFails (S.state out.old) (S.state out.new)) }
    ensures no_fault { OnOk result ((S.state out.new).faults ≡ (S.state out.old).faults) }
    ensures counts { SinkFaultsNeverFall (S.state out.old) (S.state out.new) }
    ensures room { block_room ≤ vec_capacity block.new }
{
    let mut place = 0u32;
    let mut rest = flash;
    while rest.len() > 0 {
        let (bytes, more) = rest.split_at(rest.len().min(BLOCK_SIZE as usize));
        block.clear();
        put_rows(block, place, bytes);
        write_all(out, block)?;
        place += bytes.len() as u32;
        rest = more;
    }
    Ok(())
}

/// The text of a flash image, ready to be written: the memory that this takes is there.
pub struct McsText {
    image: Vec<u8>,
    block: Vec<u8>,
}

impl Drop for McsText {
    fn drop(self) {
        let McsText { image: _, block: _ } = self;
    }
}

impl Model for McsText {
    ghost Value = { List ℕ };

    ghost view = { λ t. t.image.items };

    ghost invariant = { λ t. (length t.image.items ≤ flash_limit) × (block_room ≤ vec_capacity t.block) };
}

impl McsText {
    /// The text of an image of at most 134,217,728 bytes.
    pub fn new(alloc: Global, image: Vec<u8>) -> Result<McsText, NoMemory>
        requires { length image.items ≤ flash_limit }
        ensures { IfOk result (λ text. text ≡ image.items) }
    {
        let block = Vec::with_capacity(alloc, BLOCK_ROOM)?;
        Ok(McsText { image, block })
    }

    /// Writes the text. After an error a prefix of it was written. Either way it may be written again.
    pub fn write<S: Sink>(&mut self, out: &mut S) -> Result<(), Failed>
        ensures whole { OnOk result (PutsAll (S.state out.old) (mcs_text self.old) (S.state out.new)) }
        ensures prefix { PutsSome (S.state out.old) (mcs_text self.old) (S.state out.new) }
        ensures failed { OnErr result (SinkFails (S.state out.old) (S.state out.new)) }
        ensures no_fault { OnOk result ((S.state out.new).faults ≡ (S.state out.old).faults) }
        ensures same { self.new ≡ self.old }
    {
        write_rows(out, &self.image, &mut self.block)?;
        write_all(out, END_LINE)
    }
}
