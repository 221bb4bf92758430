//! The words of packets, and those that stand between packets (UG470, packet types; configuration sequence).
ghost use Rattle.std.specs.Prelude.{◌≡◌, ◌<◌};
ghost use Rattle.x7_regs.specs.Register.{reg_number_count};
ghost use Rattle.x7_packets.specs.Packet.{packet_type_of, register_of, type1_count_of, type2_count_of, header_kind_of};
ghost use Rattle.x7_packets.specs.PacketWords.{command, frame_data_headers, frame_read_headers, type1_count_bound, type1_read_header, type1_write_header, type2_count_bound, type2_read_header, type2_write_header, write_one};

use x7_regs::{Command, Reg};

/// The sync word, which begins a session.
pub const SYNC_WORD: u32 = 0xAA99_5566;

/// The sync word's bytes.
pub const SYNC_BYTES: [u8; 4] = [0xAA, 0x99, 0x55, 0x66];

/// The dummy word, which has no effect.
pub const DUMMY_WORD: u32 = 0xFFFF_FFFF;

/// The first word of the bus width pattern.
pub const BUS_WIDTH_SYNC: u32 = 0x0000_00BB;

/// The word of the bus width pattern by which a device finds the width.
pub const BUS_WIDTH_DETECT: u32 = 0x1122_0044;

/// A no-op, which is its header alone.
pub const NO_OP: u32 = 0x2000_0000;

/// The packet type and the opcode of a no-op as one number, bits 31:27 of its header.
pub const NO_OP_KIND: u32 = 4;

/// The packet type and the opcode of a type 1 read as one number, bits 31:27 of its header.
pub const TYPE1_READ_KIND: u32 = 5;

/// The packet type and the opcode of a type 1 write as one number, bits 31:27 of its header.
pub const TYPE1_WRITE_KIND: u32 = 6;

/// The packet type and the opcode of a type 2 read as one number, bits 31:27 of its header.
pub const TYPE2_READ_KIND: u32 = 9;

/// The packet type and the opcode of a type 2 write as one number, bits 31:27 of its header.
pub const TYPE2_WRITE_KIND: u32 = 10;

/// How many word counts a type 1 header can say: each is below this.
pub const TYPE1_COUNT_BOUND: u32 = 1 << 11;

/// How many word counts a type 2 header can say: each is below this.
pub const TYPE2_COUNT_BOUND: u32 = 1 << 27;

/// How many bits of a header stand below its packet type.
const BELOW_TYPE: u32 = 29;

/// How many bits of a header stand below its packet type and its opcode.
const BELOW_KIND: u32 = 27;

/// How many bits of a type 1 header stand below its register.
const BELOW_REGISTER: u32 = 13;

/// The bits of a register's number, once those below it are shifted away: five.
const REGISTER_BITS: u32 = 0x1F;

/// The bits of a type 1 header that are its word count, 10:0.
const TYPE1_COUNT_BITS: u32 = 0x7FF;

/// The bits of a type 2 header that are its word count, 26:0.
const TYPE2_COUNT_BITS: u32 = 0x7FF_FFFF;

/// The packet type of a word in a header's place, bits 31:29.
#[inline(always)]
pub(crate) fn packet_type_in(word: u32) -> u32
    ensures { result ≡ packet_type_of word }
{
    word >> BELOW_TYPE
}

/// The kind of a header: its packet type and opcode as one number, bits 31:27.
#[inline(always)]
pub fn kind_in(header: u32) -> u32
    ensures { result ≡ header_kind_of header }
{
    header >> BELOW_KIND
}

/// The register that a type 1 header names, bits 17:13.
#[inline(always)]
pub fn register_in(header: u32) -> u8
    ensures value { result ≡ register_of header }
    ensures most { result < reg_number_count }
{
    (header >> BELOW_REGISTER & REGISTER_BITS) as u8
}

/// The word count of a type 1 header, bits 10:0.
#[inline(always)]
pub fn type1_count_in(header: u32) -> u32
    ensures value { result ≡ type1_count_of header }
    ensures most { result < type1_count_bound }
{
    header & TYPE1_COUNT_BITS
}

/// The word count of a type 2 header, bits 26:0.
#[inline(always)]
pub fn type2_count_in(header: u32) -> u32
    ensures value { result ≡ type2_count_of header }
    ensures most { result < type2_count_bound }
{
    header & TYPE2_COUNT_BITS
}

/// The header of a type 1 read of `count` words, by the register's number. The reserved bits are 0.
#[inline(always)]
pub fn type1_read_header(register: u8, count: u32) -> u32
    requires register { register < reg_number_count }
    requires count { count < type1_count_bound }
    ensures { result ≡ type1_read_header register count }
{
    (TYPE1_READ_KIND << BELOW_KIND) + (u32::from(register) << BELOW_REGISTER) + count
}

/// The header of a type 1 write of `count` words, by the register's number. The reserved bits are 0.
#[inline(always)]
pub fn type1_write_header(register: u8, count: u32) -> u32
    requires register { register < reg_number_count }
    requires count { count < type1_count_bound }
    ensures { result ≡ type1_write_header register count }
{
    (TYPE1_WRITE_KIND << BELOW_KIND) + (u32::from(register) << BELOW_REGISTER) + count
}

/// The header of a type 2 read of `count` words.
#[inline(always)]
pub fn type2_read_header(count: u32) -> u32
    requires { count < type2_count_bound }
    ensures { result ≡ type2_read_header count }
{
    (TYPE2_READ_KIND << BELOW_KIND) + count
}

/// The header of a type 2 write of `count` words.
#[inline(always)]
pub fn type2_write_header(count: u32) -> u32
    requires { count < type2_count_bound }
    ensures { result ≡ type2_write_header count }
{
    (TYPE2_WRITE_KIND << BELOW_KIND) + count
}

/// One word written to a register: a header and the word.
#[inline(always)]
pub fn write_one(register: Reg, word: u32) -> [u32; 2]
    ensures { result ≡ write_one register word }
{
    [type1_write_header(register.number(), 1), word]
}

/// A command: its code written to CMD.
#[inline(always)]
pub fn command(c: Command) -> [u32; 2]
    ensures { result ≡ command c }
{
    write_one(Reg::Cmd, c.code())
}

/// The headers of a write of `count` words to FDRI: an empty type 1 packet, and a type 2 packet.
#[inline(always)]
pub fn frame_data_headers(count: u32) -> [u32; 2]
    requires { count < type2_count_bound }
    ensures { result ≡ frame_data_headers count }
{
    [
        type1_write_header(Reg::Fdri.number(), 0),
        type2_write_header(count),
    ]
}

/// The headers of a read of `count` words from FDRO: an empty type 1 packet, and a type 2 packet.
#[inline(always)]
pub fn frame_read_headers(count: u32) -> [u32; 2]
    requires { count < type2_count_bound }
    ensures { result ≡ frame_read_headers count }
{
    [
        type1_read_header(Reg::Fdro.number(), 0),
        type2_read_header(count),
    ]
}
