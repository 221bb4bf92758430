//! The test access port of a device.
ghost use Rattle.std.specs.Prelude.{◌≡◌, ◌≤◌, ◌∷◌, ℕ, false, [], List, length, IsTrue};
ghost use Rattle.x7_words.specs.Word.{number_of_bit};
ghost use Rattle.x7_part.specs.Part.{PartData};
ghost use Rattle.x7_engine.specs.Kept.{on_the_bench};
ghost use Rattle.x7_engine.specs.Standing.{DeviceStandsFor, DeviceState};
ghost use Rattle.x7_jtag.specs.Port.{Port, after_action, after_capture, after_shift, data_shown, after_idle, init_b_of, is_eighth, lowest_bit, next_of_eight, port_after, register_shifted as shifted_in, ir_status, ir_status_with, tdo_of, top_bit_of_word, after_update, with_bit as with_bit_in};
ghost use Rattle.x7_jtag.specs.State.{PortClock};
ghost use Rattle.x7_jtag.specs.declared.instruction.Instruction.TheVariants.{CfgIn};
ghost use Rattle.x7_jtag.specs.Tap.{CanAllBeOffered, CanBeOffered, MakesClocks, PortBecomes, StandsForPort, TakesBytes, TapStandsFor, TookOfGiven, last_or};
ghost use Rattle.x7_svf.specs.Bits.{bytes_bits};
ghost use Rattle.x7_jtag.specs.Clocks.{clock as clock_of, inner_clocks};

use crate::instruction::{Instruction, instruction_of};
use crate::queue::Queue;
use crate::state::State;
use std::marker::Model;
use x7_engine::Device;
use x7_regs::Reg;

/// The byte that eight clocks in Run-Test/Idle under JSTART offer.
const STARTUP_BYTE: u8 = 0xFF;

/// What USERCODE shifts out, whatever a stream says (this project's choice).
const USER_CODE: u32 = 0xFFFF_FFFF;

/// What the highest bit of a register of 32 bits is worth.
const TOP_BIT_OF_WORD: u32 = 1 << 31;

/// What the highest bit of the instruction register, which has six, is worth.
const TOP_BIT_OF_INSTRUCTION: u32 = 1 << 5;

/// What the bit of the bypass register, which has one, is worth.
const TOP_BIT_OF_BYPASS: u32 = 1;

/// What the highest bit of a byte is worth.
const TOP_BIT_OF_BYTE: u32 = 1 << 7;

/// What DONE is worth in what Capture-IR loads.
const DONE_BIT_VALUE: u32 = 1 << 5;

/// What INIT_B is worth in what Capture-IR loads.
const INIT_B_BIT_VALUE: u32 = 1 << 4;

/// The two lowest bits of what Capture-IR loads (IEEE 1149.1).
const LOWEST_BITS_OF_IR: u32 = 1;

/// The place of INIT_B in a word of STAT, from the lowest bit, 0.
const INIT_B_AT: u32 = 12;

/// A test access port (IEEE 1149.1), clock by clock. It takes no memory.
#[derive(Drop)]
pub struct Tap {
    state: State,
    instruction: Instruction,
    /// The register between TDI and TDO.
    register: u32,
    /// A count from 0 to 7 of the bits of a byte under CFG_IN, or of clocks in Run-Test/Idle under JSTART.
    count: u32,
    queue: Queue,
}

impl Model for Tap {
    ghost use Rattle.std.specs.Prelude.{◌<◌};
    ghost use Rattle.x7_jtag.specs.Tap.{TapState};

    ghost Value = { TapState };

    ghost view = { λ t. record { state = t.state; instruction = t.instruction; register = t.register; count = t.count; queue = t.queue } };

    ghost invariant = { λ t. t.count < 8 };
}

/// A bit as a number.
fn number_of_bit(bit: bool) -> u32
    ensures value { result ≡ number_of_bit bit }
    ensures most { result ≤ 1 }
{
    if bit { 1 } else { 0 }
}

/// The lowest bit of a register.
fn lowest_bit(register: u32) -> bool
    ensures { result ≡ lowest_bit register }
{
    register % 2 == 1
}

/// A register after one shift: its lowest bit is gone, and TDI is its highest, which is worth `top`.
fn register_shifted(top: u32, register: u32, tdi: bool) -> u32
    requires { top ≤ top_bit_of_word }
    ensures { result ≡ shifted_in top register tdi }
{
    let high = if tdi { top } else { 0 };
    register / 2 + high
}

/// The byte after one bit more: TDI comes in as the lowest, and the highest is dropped.
fn with_bit(byte: u32, tdi: bool) -> u8
    ensures { result ≡ with_bit_in byte tdi }
{
    (byte % TOP_BIT_OF_BYTE * 2 + number_of_bit(tdi)) as u8
}

/// What Capture-IR loads for these values of DONE and STAT.
fn ir_status_with(is_done: bool, stat: u32) -> u32
    ensures { result ≡ ir_status_with is_done (init_b_of stat) }
{
    DONE_BIT_VALUE * number_of_bit(is_done)
        + INIT_B_BIT_VALUE * number_of_bit((stat >> INIT_B_AT) % 2 == 1)
        + LOWEST_BITS_OF_IR
}

/// What Capture-IR loads, by the state of the device.
fn ir_status(device: &Device) -> u32
    ensures { (part : PartData) (given bytes : List ℕ) → DeviceStandsFor part on_the_bench false device.now bytes → TookOfGiven part given bytes → result ≡ ir_status part given }
{
    ir_status_with(device.state().lines.done, device.value(Reg::Stat))
}

/// The last of bytes, or `before` where there is none.
fn last_or(bytes: &[u8], before: u32) -> u32
    ensures { result ≡ last_or before bytes.now }
{
    if bytes.is_empty() {
        return before;
    }
    u32::from(bytes[bytes.len() - 1])
}

impl Tap {
    /// A tap in Test-Logic-Reset with the instruction IDCODE.
    pub fn new() -> Tap
        ensures { (part : PartData) (d : DeviceState) → DeviceStandsFor part on_the_bench false d [] → TapStandsFor part result d [] }
    {
        Tap {
            state: State::TestLogicReset,
            instruction: Instruction::Idcode,
            register: 0,
            count: 0,
            queue: Queue::new(),
        }
    }

    /// The state.
    pub fn state(&self) -> State
        ensures { result ≡ self.now.state }
    {
        self.state
    }

    /// The instruction.
    pub fn instruction(&self) -> Instruction
        ensures { result ≡ self.now.instruction }
    {
        self.instruction
    }

    /// Counts one bit or clock more, from 0 to 7 and then from 0 again, and says whether it was the eighth.
    fn count_to_eight(&mut self) -> bool
        ensures counted { self.new ≡ record self.old { count = next_of_eight self.old.count } }
        ensures eighth { result ≡ is_eighth self.old.count }
    {
        let completes = self.count == 7;
        self.count = (self.count + 1) % 8;
        completes
    }

    /// Run-Test/Idle: under JSTART each eighth clock offers a byte FF.
    fn idle(&mut self, device: &mut Device)
        requires { CanBeOffered device.old }
        ensures port { PortBecomes self.old device.old self.new device.new (λ part p. after_idle part p.instruction p) }
    {
        match self.instruction {
            Instruction::Jstart => {
                if self.count_to_eight() {
                    self.queue.offer(STARTUP_BYTE, device);
                }
            }
            _ => (),
        }
    }

    /// Capture-DR: the register takes the idcode, the user code or 0. Under CFG_IN the next bit is a byte's first.
    fn capture(&mut self, device: &Device)
        ensures port { PortBecomes self.old device.now self.new device.now (λ part p. after_capture part p.instruction p) }
    {
        match self.instruction {
            Instruction::Idcode => self.register = device.part().idcode(),
            Instruction::Usercode => self.register = USER_CODE,
            Instruction::CfgIn => {
                self.register = 0;
                self.count = 0;
            }
            _ => self.register = 0,
        }
    }

    /// Shift-DR under CFG_IN: each eighth bit completes a byte, which is offered.
    fn shift_byte(&mut self, tdi: bool, device: &mut Device)
        requires { CanBeOffered device.old }
        ensures port { PortBecomes self.old device.old self.new device.new (λ part p. after_shift part CfgIn p tdi) }
    {
        let byte = with_bit(self.register, tdi);
        self.register = u32::from(byte);
        if self.count_to_eight() {
            self.queue.offer(byte, device);
        }
    }

    /// One shift of the register, whose highest bit is worth `top`. Gives the bit that goes out.
    fn shift_register(&mut self, top: u32, tdi: bool) -> bool
        requires { top ≤ top_bit_of_word }
        ensures shifted { self.new ≡ record self.old { register = shifted_in top self.old.register tdi } }
        ensures out { result ≡ lowest_bit self.old.register }
    {
        let out = lowest_bit(self.register);
        self.register = register_shifted(top, self.register, tdi);
        out
    }

    /// Whether the tap takes whole bytes: true only where the next bit is the first of a byte for the device.
    pub(crate) fn takes_bytes(&self) -> bool
        ensures { IsTrue result → TakesBytes self.now }
    {
        match (self.state, self.instruction) {
            (State::ShiftDr, Instruction::CfgIn) => self.count == 0,
            _ => false,
        }
    }

    /// Makes the clocks of TMS 0 that shift in the bits of `bytes`, each byte from its highest bit.
    pub(crate) fn shift_bytes(&mut self, bytes: &[u8], device: &mut Device)
        requires takes { TakesBytes self.old }
        requires fits { CanAllBeOffered self.old.queue device.old (length bytes.now) }
        ensures takes { TakesBytes self.new }
        ensures clocks { MakesClocks self.old device.old self.new device.new (λ p. inner_clocks (bytes_bits bytes.now)) }
    {
        self.queue.offer_all(bytes, device);
        self.register = last_or(bytes, self.register);
    }

    /// Shift-DR: one bit through what the instruction selects. Gives TDO.
    fn shift(&mut self, tdi: bool, device: &mut Device) -> bool
        requires { CanBeOffered device.old }
        ensures port { PortBecomes self.old device.old self.new device.new (λ part p. after_shift part p.instruction p tdi) }
        ensures tdo { (part : PartData) (p : Port) → StandsForPort part self.old device.old p → result ≡ data_shown part p.instruction p }
    {
        match self.instruction {
            Instruction::CfgIn => {
                self.shift_byte(tdi, device);
                false
            }
            Instruction::CfgOut => self.queue.shift(device),
            Instruction::Idcode => self.shift_register(TOP_BIT_OF_WORD, tdi),
            Instruction::Usercode => self.shift_register(TOP_BIT_OF_WORD, tdi),
            _ => self.shift_register(TOP_BIT_OF_BYPASS, tdi),
        }
    }

    /// Update-IR: the register becomes the instruction, the count begins at 0, and JPROGRAM resets the device.
    fn update(&mut self, device: &mut Device)
        ensures port { PortBecomes self.old device.old self.new device.new (λ part p. after_update p) }
    {
        self.instruction = instruction_of(self.register);
        self.count = 0;
        match self.instruction {
            Instruction::Jprogram => self.queue.program(device),
            _ => (),
        }
    }

    /// Does the action of the present state, and gives TDO.
    fn act(&mut self, tdi: bool, device: &mut Device) -> bool
        requires { CanBeOffered device.old }
        ensures port { PortBecomes self.old device.old self.new device.new (λ part p. after_action part p.state p tdi) }
        ensures tdo { (part : PartData) (p : Port) → StandsForPort part self.old device.old p → result ≡ tdo_of part p }
    {
        match self.state {
            State::TestLogicReset => {
                self.instruction = Instruction::Idcode;
                false
            }
            State::RunTestIdle => {
                self.idle(device);
                false
            }
            State::CaptureDr => {
                self.capture(device);
                false
            }
            State::ShiftDr => self.shift(tdi, device),
            State::CaptureIr => {
                self.register = ir_status(device);
                false
            }
            State::ShiftIr => self.shift_register(TOP_BIT_OF_INSTRUCTION, tdi),
            State::UpdateIr => {
                self.update(device);
                false
            }
            _ => false,
        }
    }

    /// One clock: gives TDO, does the action of the present state, and moves to the next.
    ///
    /// The clauses speak of a tap and a device that were new together, and since then had only these clocks: the tap
    /// before no other device, and the device by no other call.
    pub fn clock(&mut self, tms: bool, tdi: bool, device: &mut Device) -> bool
        requires { CanBeOffered device.old }
        ensures clocks { MakesClocks self.old device.old self.new device.new (λ p. clock_of tms tdi ∷ []) }
        ensures tdo { (part : PartData) (cs : List PortClock) → TapStandsFor part self.old device.old cs → result ≡ tdo_of part (port_after part cs) }
    {
        let tdo = self.act(tdi, device);
        self.state = self.state.next(tms);
        tdo
    }
}
