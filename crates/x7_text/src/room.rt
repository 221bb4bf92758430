//! Appending where there is room, so that nothing can fail.
ghost use Rattle.std.specs.Prelude.{◌≡◌, length, OnOk};
ghost use Rattle.x7_text.specs.Appends.{Appends, HasSpareRoom};

use x7_words::NoMemory;

/// Appends bytes for which there is room, and so takes no memory.
pub fn put(text: &mut Vec<u8>, bytes: &[u8])
    requires { HasSpareRoom text.old (length bytes.now) }
    ensures appends { Appends text.old text.new bytes.now (length bytes.now) }
{
    match text.extend_from_slice(bytes) {
        Ok(()) => (),
        Err(_) => unreachable!(),
    }
}

/// Makes room for this many bytes more. After an error the text is as it was.
pub fn make_room(text: &mut Vec<u8>, more: usize) -> Result<(), NoMemory>
    ensures items { text.new.items ≡ text.old.items }
    ensures room { OnOk result (HasSpareRoom text.new more) }
{
    text.reserve(more)?;
    Ok(())
}
