//! Bytes that were put under a name.
ghost use Rattle.std.specs.Prelude.{◌≡◌, ◌<◌, ◌+◌, drop, length, map, option_map, position, IfSome, is_none, string_bytes};
ghost use Rattle.std.specs.Option.{ForSome};
ghost use Rattle.std.specs.Str.{bytes_eq};
ghost use Rattle.x7_in_memory.specs.Memory.{bytes_under, name_under};
ghost use Rattle.x7_in_memory.specs.NamedBytes.{entry_of, left_of, name_of_place};

/// A name and what was put under it.
pub(crate) struct NamedBytes {
    pub(crate) name: String,
    pub(crate) bytes: Vec<u8>,
}

impl Drop for NamedBytes {
    fn drop(self) {
        let NamedBytes { name: _, bytes: _ } = self;
    }
}

/// The place in the list, from 0, of the first bytes under this name.
fn first_place(named: &[NamedBytes], name: &str) -> Option<usize>
    ensures { result ≡ position (λ one. bytes_eq (string_bytes one.name) name.now) named.now }
{
    named.iter().position(|one| one.name.as_str() == name)
}

/// The place in the list, from 0, of what was put last under the name, if anything was.
pub(crate) fn place_of(named: &[NamedBytes], name: &str) -> Option<usize>
    ensures within { IfSome result (λ place. place < length named.now) }
    ensures found { is_none result ≡ is_none (bytes_under (map entry_of named.now) name.now) }
    ensures bytes { left_of named.now 0 result ≡ bytes_under (map entry_of named.now) name.now }
    ensures name { name_of_place named.now result ≡ name_under (map entry_of named.now) name.now }
{
    first_place(named, name)
}

/// A place in the list once one more name stands before it.
pub(crate) fn next_place(place: Option<usize>) -> Option<usize>
    requires { ForSome place (λ at. at + 1 < usize.MAX) }
    ensures { result ≡ option_map (λ at. at + 1) place }
{
    match place {
        None => None,
        Some(at) => Some(at + 1),
    }
}

/// The bytes that are left once the first `given` ones were given.
fn bytes_from(bytes: &[u8], given: usize) -> &[u8]
    ensures { result.now ≡ drop given bytes.now }
{
    &bytes[given.min(bytes.len())..]
}

/// The bytes at a place in the list that are left once the first `given` ones were given.
pub(crate) fn left_at(named: &[NamedBytes], place: usize, given: usize) -> &[u8]
    requires { place < length named.now }
    ensures { left_of named.now given (Some place) ≡ Some result.now }
{
    bytes_from(named[place].bytes.as_slice(), given)
}
