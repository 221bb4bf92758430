//! The texts of faults, and the number of one of the two statuses to which no worked case comes: 8, and 11, to which
//! x7_tool_tests comes.
use std::alloc::Global;
use std::fmt::Display;
use x7_boot::{BootFault, ImageFault};
use x7_debug::ScriptFault;
use x7_forms::Status;
use x7_frames::FramesFault;
use x7_listing::AsmFault;
use x7_part::{PartFault, PartKey, Which};
use x7_planner::PlanFault;

/// Whether the value is printed as this text. Without memory it isn't.
fn is_printed<D: Display>(alloc: Global, value: &D, text: &str) -> bool {
    match format!(in alloc; "{value}") {
        Ok(printed) => printed.as_str() == text,
        Err(_) => false,
    }
}

#[test]
fn part_faults_name_the_key_and_the_row(rt: HostRuntime) {
    let at_the_top = Which {
        row: None,
        key: PartKey::BusWidth,
    };
    let in_first_row = Which {
        row: Some(1),
        key: PartKey::Minors,
    };
    let cases = [
        (PartFault::Toml, "the text is no TOML"),
        (PartFault::Key(at_the_top), "key bus_width"),
        (PartFault::Range(in_first_row), "range minors in row 1"),
        (PartFault::SameRow(2), "same row 2"),
        (PartFault::TooMany(131_073), "too many frames: 131073"),
        (PartFault::NoMemory, "no memory"),
    ];
    for (fault, text) in cases {
        assert!(rt; is_printed(rt.alloc(), &fault, text));
    }
}

#[test]
fn assembly_faults_name_the_line(rt: HostRuntime) {
    let cases = [
        (AsmFault::Line(2), "line 2 is no line"),
        (
            AsmFault::TooLong(67_108_865),
            "line 67108865 passes the limit",
        ),
        (AsmFault::NoMemory, "no memory"),
    ];
    for (fault, text) in cases {
        assert!(rt; is_printed(rt.alloc(), &fault, text));
    }
}

#[test]
fn frames_faults_name_the_line(rt: HostRuntime) {
    let cases = [
        (FramesFault::Line(3), "line 3 is no frame line"),
        (
            FramesFault::Address(4),
            "line 4 has an address that the part lacks",
        ),
        (FramesFault::Twice(5), "line 5 repeats an address"),
        (FramesFault::NoMemory, "no memory"),
    ];
    for (fault, text) in cases {
        assert!(rt; is_printed(rt.alloc(), &fault, text));
    }
}

#[test]
fn plan_faults_name_the_address_or_the_count(rt: HostRuntime) {
    let cases = [
        (PlanFault::Empty, "the plan has no frame"),
        (
            PlanFault::Foreign(0x0042_000A),
            "the part has no frame at 0042000A",
        ),
        (PlanFault::Range(10), "10 slots can't be read"),
        (PlanFault::NoMemory, "no memory"),
    ];
    for (fault, text) in cases {
        assert!(rt; is_printed(rt.alloc(), &fault, text));
    }
}

#[test]
fn script_faults_name_the_line(rt: HostRuntime) {
    let cases = [
        (ScriptFault::Line(6), "line 6 is no order"),
        (ScriptFault::NoMemory, "no memory"),
    ];
    for (fault, text) in cases {
        assert!(rt; is_printed(rt.alloc(), &fault, text));
    }
}

#[test]
fn image_and_boot_faults_say_what_was_wrong(rt: HostRuntime) {
    let images = [
        (
            ImageFault::TooLong,
            "the image would be larger than a flash may be",
        ),
        (ImageFault::NoMemory, "no memory"),
    ];
    for (fault, text) in images {
        assert!(rt; is_printed(rt.alloc(), &fault, text));
    }
    let boots = [
        (BootFault::Failed, "a read of the flash failed"),
        (BootFault::TooLarge, "the flash is larger than one may be"),
        (BootFault::NoMemory, "no memory"),
    ];
    for (fault, text) in boots {
        assert!(rt; is_printed(rt.alloc(), &fault, text));
    }
}

/// By its clause it is 8 too: here the number is written out.
#[test]
fn want_of_memory_has_a_number(rt: HostRuntime) {
    assert!(rt; Status::NoMemory.number() == 8);
}
