//! What a run should come to, and what is kept of it.
use crate::fault::Fault;
use crate::named::{Named, put};
use crate::token::put_line;
use std::alloc::Global;

/// How much of the text is given.
#[derive(Drop)]
pub(crate) enum Extent {
    /// The text is the one given.
    Whole,
    /// The text is a prefix of the one given.
    Prefix,
    /// The text has the lines and the length that are given.
    Parts,
    /// Status, text and message are any: they are compared among the runs of the case alone.
    Any,
}

/// What a run should come to.
pub(crate) struct Expected {
    alloc: Global,
    /// The status of the command.
    pub(crate) status: u8,
    /// How much of the text `out` says.
    pub(crate) extent: Extent,
    /// The text, or under `Extent::Parts` lines that it has, each with its end.
    pub(crate) out: Vec<u8>,
    /// The number of the text's bytes, where it is given.
    pub(crate) length: Option<u32>,
    /// The message, each line with its end.
    pub(crate) err: Vec<u8>,
    /// Whether the case says what the flash is afterwards; else it is as it was.
    pub(crate) has_flash: bool,
    /// The bytes of the flash afterwards, where the case says them.
    pub(crate) flash: Vec<u8>,
    /// The name under which later cases have what `out` got; empty where they don't.
    pub(crate) kept: String,
    /// Whether later cases have what the flash holds in place of what `out` got.
    pub(crate) keeps_flash: bool,
}

impl Drop for Expected {
    fn drop(self) {
        let Expected {
            alloc: _,
            status: _,
            extent: _,
            out: _,
            length: _,
            err: _,
            has_flash: _,
            flash: _,
            kept: _,
            keeps_flash: _,
        } = self;
    }
}

impl Expected {
    /// Status 0 and no text, and nothing is kept.
    pub(crate) fn new(alloc: Global) -> Expected {
        Expected {
            alloc,
            status: 0,
            extent: Extent::Whole,
            out: Vec::new(alloc),
            length: None,
            err: Vec::new(alloc),
            has_flash: false,
            flash: Vec::new(alloc),
            kept: String::new(alloc),
            keeps_flash: false,
        }
    }

    /// Takes how much of the text is given. `Fault::Line`: another line gave as much already, or lines of another kind.
    fn take_extent(&mut self, extent: Extent) -> Result<(), Fault> {
        match self.extent {
            Extent::Whole => self.extent = extent,
            _ => return Err(Fault::Line),
        }
        Ok(())
    }

    /// Takes that parts of the text are given. `Fault::Line`: another line gave the text in another way.
    fn take_part(&mut self) -> Result<(), Fault> {
        match self.extent {
            Extent::Parts => Ok(()),
            Extent::Whole if self.out.is_empty() => self.take_extent(Extent::Parts),
            _ => Err(Fault::Line),
        }
    }

    /// Takes a line that says what a run comes to, or what is kept of it. `Fault::Key`: its key is of no such line.
    /// `Fault::Line`: it says of the text what doesn't go with another line, as lines of the text beside parts of it.
    pub(crate) fn take(&mut self, shared: &[Named], key: &str, rest: &str) -> Result<(), Fault> {
        match key {
            "out" | "out_lines" | "out_bytes" | "out_slice" => {
                if let Extent::Parts = self.extent {
                    return Err(Fault::Line);
                }
                return put(self.alloc, &mut self.out, shared, key, rest);
            }
            "err" => return put_line(&mut self.err, rest),
            "flash_after" | "flash_after_slice" => {
                self.has_flash = true;
                return put(self.alloc, &mut self.flash, shared, key, rest);
            }
            "keep" | "keep_flash" => {
                self.keeps_flash = key == "keep_flash";
                self.kept.clear();
                return self.kept.push_str(rest).or(Err(Fault::NoMemory));
            }
            "has" => {
                self.take_part()?;
                return put_line(&mut self.out, rest);
            }
            "length" => {
                self.take_part()?;
                self.length = Some(rest.parse::<u32>()?);
            }
            "status" => self.status = rest.parse::<u8>()?,
            "prefix" => self.take_extent(Extent::Prefix)?,
            "any" => self.take_extent(Extent::Any)?,
            _ => return Err(Fault::Key),
        }
        Ok(())
    }
}
