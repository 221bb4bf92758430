//! What the bytes of one record say.
ghost use Rattle.std.specs.Prelude.{◌≡◌, ◌<◌, ◌%◌, ◌++◌, length, OnOk};
ghost use Rattle.std.specs.List.{sum};
ghost use Rattle.x7_mcs.specs.Record.{IsOfItsCount, base_value, record_data, meaning_by_type, meaning_of, sum_byte, byte_values, bytes_beside_data};

use crate::fault::McsFault;

/// How many bytes the 16 address bits of a record reach from the base on: those of a block.
pub(crate) const BLOCK_SIZE: u32 = 65_536;

/// How many bytes a record has beside its data: its count, the two of its address, its type and its sum byte.
pub(crate) const BYTES_BESIDE_DATA: usize = 5;

/// The type of a record of data (Intel HEX).
pub(crate) const DATA_TYPE: u8 = 0x00;

/// The type of the record that ends a file.
const END_TYPE: u8 = 0x01;

/// The type of a record that gives the base of the addresses that follow, in units of 16 bytes (an extended segment
/// address).
const SEGMENT_BASE_TYPE: u8 = 0x02;

/// The type of a record that says where a program starts, as a segment and an offset.
const SEGMENT_START_TYPE: u8 = 0x03;

/// The type of a record that gives the base of the addresses that follow, in units of 65,536 bytes (an extended linear
/// address).
pub(crate) const LINEAR_BASE_TYPE: u8 = 0x04;

/// The type of a record that says where a program starts, as one address.
const LINEAR_START_TYPE: u8 = 0x05;

/// What a record says.
#[derive(Clone, Copy)]
pub(crate) enum Meaning {
    /// Where a program starts, which has no effect here.
    Start,
    /// The data begin at this address, which counts from the base that stands.
    Data(u32),
    /// No record follows.
    End,
    /// The base of the addresses that follow, a place in bytes.
    Base(u32),
}

/// The sum of bytes modulo 256.
#[inline(always)]
pub(crate) fn sum_of(bytes: &[u8]) -> u8
    ensures { result ≡ sum bytes.now % byte_values }
{
    let mut total: u8 = 0;
    for byte in bytes {
        total = total.wrapping_add(*byte);
    }
    total
}

/// The byte that makes the sum of a record's fields, its data and itself 0 modulo 256.
#[inline(always)]
pub(crate) fn sum_byte(fields: &[u8], content: &[u8]) -> u8
    ensures { result ≡ sum_byte (fields.now ++ content.now) }
{
    0u8.wrapping_sub(sum_of(fields).wrapping_add(sum_of(content)))
}

/// The number in the two data bytes of a record that gives a base, the high byte first.
fn base_value(bytes: &[u8]) -> u32
    requires { bytes_beside_data < length bytes.now }
    ensures { result ≡ base_value bytes.now }
{
    256 * u32::from(bytes[4]) + u32::from(bytes[5])
}

/// What the record of line `line_number` says by its type, its count and its address, or `Line` where these are no
/// record's.
fn meaning_by_type(line_number: u64, bytes: &[u8]) -> Result<Meaning, McsFault>
    requires { IsOfItsCount bytes.now }
    ensures { result ≡ meaning_by_type line_number bytes.now }
{
    let count = u32::from(bytes[0]);
    let address = 256 * u32::from(bytes[1]) + u32::from(bytes[2]);
    match (bytes[3], count) {
        (DATA_TYPE, _) if address + count <= BLOCK_SIZE => Ok(Meaning::Data(address)),
        (END_TYPE, 0) => Ok(Meaning::End),
        (SEGMENT_BASE_TYPE, 2) => Ok(Meaning::Base(16 * base_value(bytes))),
        (LINEAR_BASE_TYPE, 2) => Ok(Meaning::Base(BLOCK_SIZE * base_value(bytes))),
        (SEGMENT_START_TYPE | LINEAR_START_TYPE, 4) => Ok(Meaning::Start),
        _ => Err(McsFault::Line(line_number)),
    }
}

/// What the bytes of line `line_number` say, where a record 01 stood before or not; or the first fault of these: the
/// count, the sum byte, a record 01 before the line, the type with the count and the address.
pub(crate) fn meaning_of(
    line_number: u64,
    has_ended: bool,
    bytes: &[u8],
) -> Result<Meaning, McsFault>
    ensures meaning { result ≡ meaning_of line_number has_ended bytes.now }
    ensures counted { OnOk result (IsOfItsCount bytes.now) }
{
    if bytes.len() == 0 || usize::from(bytes[0]) + BYTES_BESIDE_DATA != bytes.len() {
        return Err(McsFault::Line(line_number));
    }
    let last = bytes.len() - 1;
    let (want, got) = (sum_byte(&bytes[..last], &[]), bytes[last]);
    if want != got {
        return Err(McsFault::Sum {
            line: line_number,
            want,
            got,
        });
    }
    if has_ended {
        return Err(McsFault::Line(line_number));
    }
    meaning_by_type(line_number, bytes)
}

/// The data of a record, as many bytes as its count says.
pub(crate) fn record_data(bytes: &[u8]) -> &[u8]
    requires { IsOfItsCount bytes.now }
    ensures content { result.now ≡ record_data bytes.now }
    ensures most { length result.now < byte_values }
{
    let count = usize::from(bytes[0]);
    let (_, fields) = bytes.split_at(4);
    let (content, _) = fields.split_at(count);
    content
}
