//! The bytes of a flash text.
ghost use Rattle.std.specs.Prelude.{◌≡◌, ℕ, ◌≤◌, ◌⊎◌, List, [], length, Ok, Err, MatchResult, IfOk, IfErr};
ghost use Rattle.x7_text.specs.LineReader.{WantsAt};
ghost use Rattle.x7_mcs.specs.Flash.{mcs_of};
ghost use Rattle.x7_mcs.specs.McsLines.{AreGoodMcsLines};
ghost use Rattle.x7_words.specs.Flash.{flash_limit};
ghost use Rattle.x7_mcs.specs.Text.{mcs_text};
ghost use Rattle.x7_mcs.specs.declared.fault.McsFault.{McsFault};
ghost use Rattle.x7_words.specs.Word.{AreBytes};

use crate::fault::McsFault;
use crate::mcs_lines::McsLines;
use std::alloc::Global;
use x7_text::read_lines;

/// The bytes that a flash text gives (Intel HEX), FF where no record gave one, or its first fault. `NoMemory` comes
/// only at a good line after good ones.
pub fn flash_of(alloc: Global, text: &[u8]) -> Result<Vec<u8>, McsFault>
    ensures bytes { IfOk result (λ bytes. mcs_of text.now ≡ Ok bytes.items) }
    ensures fault { IfErr result (λ fault. (fault ≡ McsFault.NoMemory) ⊎ (mcs_of text.now ≡ Err fault)) }
    ensures memory { IfErr result (λ fault. fault ≡ McsFault.NoMemory → WantsAt AreGoodMcsLines [] text.now) }
    ensures back { (x : List ℕ) → AreBytes x → length x ≤ flash_limit → text.now ≡ mcs_text x
        → MatchResult result (λ bytes. bytes.items ≡ x) (λ fault. fault ≡ McsFault.NoMemory) }
{
    read_lines(McsLines::new(alloc), text)
}
