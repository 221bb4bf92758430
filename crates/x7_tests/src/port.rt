//! What no case of SVF texts shows of the test access port: a text that is read at once, and a new port.
use std::alloc::Global;
use x7_jtag::{Instruction, State, Tap};
use x7_svf::{SVF_TEXT_LIMIT, SvfFault, svf_of};

/// What reading a text of statements came to.
#[derive(Clone, Copy, PartialEq, Eq)]
enum Found {
    /// This many statements.
    Statements(usize),
    /// No statement, on the line of this number, from 1.
    FaultOnLine(u64),
}

/// What reading the text comes to; none without memory, and of a text over the limit.
fn found_in(alloc: Global, text: &[u8]) -> Option<Found> {
    if text.len() > SVF_TEXT_LIMIT {
        return None;
    }
    match svf_of(alloc, text) {
        Ok(svf) => Some(Found::Statements(svf.len())),
        Err(SvfFault::Line(line)) => Some(Found::FaultOnLine(line)),
        Err(SvfFault::NoMemory) => None,
    }
}

#[test]
fn a_text_has_statements_or_a_line_at_fault(rt: HostRuntime) {
    let good = b"STATE RESET; SIR 6 TDI (09); SDR 32 TDI (0) TDO (0362D093) MASK (0FFFFFFF);";
    assert!(rt; found_in(rt.alloc(), good) == Some(Found::Statements(3)));
    assert!(rt; found_in(rt.alloc(), b"STATE RESET;\nSDR 8;") == Some(Found::FaultOnLine(2)));
}

/// The contract of `svf_of` takes texts of up to 512 MiB; that the constant is as large, no clause says.
#[test]
fn the_limit_of_a_text_is_512_mib(rt: HostRuntime) {
    assert!(rt; SVF_TEXT_LIMIT == 536_870_912);
}

#[test]
fn a_new_port_is_in_test_logic_reset_with_idcode(rt: HostRuntime) {
    let tap = Tap::new();
    assert!(rt; tap.state() == State::TestLogicReset && tap.instruction() == Instruction::Idcode);
}
