//! The parts of a line: words, numbers and hex digits.
use crate::fault::Fault;
use hex::FromHexError;
use std::alloc::Global;

/// The text before the first space, and the text after it; where no space stands, the whole text and an empty one.
pub(crate) fn first_word(line: &str) -> (&str, &str) {
    line.split_once(' ').unwrap_or((line, ""))
}

/// A number from 1.
pub(crate) fn positive(token: &str) -> Result<u32, Fault> {
    match token.parse::<u32>() {
        Ok(0) | Err(_) => Err(Fault::Line),
        Ok(number) => Ok(number),
    }
}

/// Appends a number from 1 to a list.
pub(crate) fn put_number(list: &mut Vec<u32>, token: &str) -> Result<(), Fault> {
    let number = positive(token)?;
    list.push(number).or(Err(Fault::NoMemory))
}

/// The numbers of `FROM TO`, from 0 on; `None` for any other text.
pub(crate) fn range_of(places: &str) -> Option<(u32, u32)> {
    let (from, to) = first_word(places);
    match (from.parse::<u32>(), to.parse::<u32>()) {
        (Ok(from), Ok(to)) => Some((from, to)),
        _ => None,
    }
}

/// Appends bytes, or answers that there is no memory for them.
pub(crate) fn append(bytes: &mut Vec<u8>, more: &[u8]) -> Result<(), Fault> {
    bytes.extend_from_slice(more).or(Err(Fault::NoMemory))
}

/// Appends the bytes as often as the number says.
fn put_times(bytes: &mut Vec<u8>, piece: &[u8], times: &str) -> Result<(), Fault> {
    let times = positive(times)?;
    if let [byte] = piece {
        let length = bytes.len().saturating_add(times as usize);
        return bytes.resize(length, *byte).or(Err(Fault::NoMemory));
    }
    for _ in 0..times {
        append(bytes, piece)?;
    }
    Ok(())
}

/// Appends the text N times and then the rest for `TEXT*N>REST`.
fn put_group(text: &mut Vec<u8>, group: &str) -> Result<(), Fault> {
    let Some((repeated, rest)) = group.split_once('>') else {
        return Err(Fault::Line);
    };
    let Some((piece, times)) = repeated.split_once('*') else {
        return Err(Fault::Line);
    };
    put_times(text, piece.as_bytes(), times)?;
    append(text, rest.as_bytes())
}

/// Appends a line, in which `<TEXT*N>` is the text N times, and its end.
pub(crate) fn put_line(text: &mut Vec<u8>, line: &str) -> Result<(), Fault> {
    let mut groups = line.split('<');
    append(text, groups.next().unwrap_or("").as_bytes())?;
    for group in groups {
        put_group(text, group)?;
    }
    append(text, b"\n")
}

/// Appends the line of `N LINE`, and its end, N times.
pub(crate) fn put_lines(alloc: Global, text: &mut Vec<u8>, lines: &str) -> Result<(), Fault> {
    let (times, line) = first_word(lines);
    let mut copy = Vec::new(alloc);
    put_line(&mut copy, line)?;
    put_times(text, &copy, times)
}

/// Appends the bytes of one token: hex digits, and after a star how many times they come.
fn put_token(alloc: Global, bytes: &mut Vec<u8>, token: &str) -> Result<(), Fault> {
    let (digits, times) = token.split_once('*').unwrap_or((token, "1"));
    if digits.is_empty() {
        return Err(Fault::Line);
    }
    match hex::decode(alloc, digits.as_bytes()) {
        Ok(piece) => put_times(bytes, &piece, times),
        Err(FromHexError::OutOfMemory) => Err(Fault::NoMemory),
        Err(_) => Err(Fault::Line),
    }
}

/// Appends the bytes of all tokens, of which there may be none.
pub(crate) fn put_tokens(alloc: Global, bytes: &mut Vec<u8>, tokens: &str) -> Result<(), Fault> {
    if tokens.is_empty() {
        return Ok(());
    }
    for token in tokens.split(' ') {
        put_token(alloc, bytes, token)?;
    }
    Ok(())
}
