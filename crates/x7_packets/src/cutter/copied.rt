//! A second cutter that is equal to a first one.
ghost use Rattle.std.specs.Prelude.{◌≡◌};

use super::Cutter;

impl Cutter {
    /// A cutter that is equal to this one and goes on by itself.
    pub fn copy(&self) -> Cutter
        ensures { result ≡ self.now }
    {
        Cutter {
            stage: self.stage,
            matcher: self.matcher,
            machine: self.machine,
            kept: self.kept,
            count: self.count,
        }
    }
}
