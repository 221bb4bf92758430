//! Bytes under a name: inputs, and the flash.
use crate::fault::Fault;
use crate::token::{append, first_word, put_line, put_lines, put_tokens, range_of};
use std::alloc::Global;

/// Bytes under a name.
pub(crate) struct Named {
    pub(crate) name: String,
    pub(crate) bytes: Vec<u8>,
}

impl Drop for Named {
    fn drop(self) {
        let Named { name: _, bytes: _ } = self;
    }
}

/// The place of the name in the list; the list's length where it lacks the name.
fn place_of(list: &[Named], name: &str) -> usize {
    for place in 0..list.len() {
        if list[place].name.as_str() == name {
            return place;
        }
    }
    list.len()
}

/// The bytes under the name, if the list has it.
pub(crate) fn bytes_of<'a>(list: &'a [Named], name: &str) -> Option<&'a [u8]> {
    match list.get(place_of(list, name)) {
        Some(named) => Some(&named.bytes),
        None => None,
    }
}

/// Whether the list has the name.
pub(crate) fn has_name(list: &[Named], name: &str) -> bool {
    place_of(list, name) < list.len()
}

/// The bytes under the name, none yet where it is new.
fn bytes_under<'a>(
    alloc: Global,
    list: &'a mut Vec<Named>,
    name: &str,
) -> Result<&'a mut Vec<u8>, Fault> {
    let place = place_of(list, name);
    if place == list.len() {
        let name = String::from_str(alloc, name)?;
        let bytes = Vec::new(alloc);
        list.push(Named { name, bytes })?;
    }
    match list.get_mut(place) {
        Some(named) => Ok(&mut named.bytes),
        None => Err(Fault::Line),
    }
}

/// Appends bytes to those under the name.
pub(crate) fn put_under(
    alloc: Global,
    list: &mut Vec<Named>,
    name: &str,
    bytes: &[u8],
) -> Result<(), Fault> {
    append(bytes_under(alloc, list, name)?, bytes)
}

/// The bytes of `NAME FROM TO` in the list: from place FROM to before place TO, which count from 0. `None` where the
/// list has no such bytes.
fn slice_of<'a>(list: &'a [Named], line: &str) -> Option<&'a [u8]> {
    let (name, places) = first_word(line);
    let (from, to) = range_of(places)?;
    bytes_of(list, name)?.get(from as usize..to as usize)
}

/// Appends what stands in a line, in the form that its key has: bytes of the others, a line N times or once, or bytes
/// in hex digits.
pub(crate) fn put(
    alloc: Global,
    bytes: &mut Vec<u8>,
    others: &[Named],
    key: &str,
    rest: &str,
) -> Result<(), Fault> {
    if key.ends_with("slice") {
        return append(bytes, slice_of(others, rest).ok_or(Fault::Line)?);
    }
    if key.ends_with("lines") {
        return put_lines(alloc, bytes, rest);
    }
    match key {
        "text" | "out" => put_line(bytes, rest),
        _ => put_tokens(alloc, bytes, rest),
    }
}

/// Appends to the bytes under the line's first word what stands after it, in the form that its key has.
pub(crate) fn put_named(
    alloc: Global,
    list: &mut Vec<Named>,
    others: &[Named],
    key: &str,
    line: &str,
) -> Result<(), Fault> {
    let (name, rest) = first_word(line);
    put(alloc, bytes_under(alloc, list, name)?, others, key, rest)
}
