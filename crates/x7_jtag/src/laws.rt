//! Laws of the port and of the statements that it plays. The functions do nothing: their contracts are the laws.
ghost use Rattle.std.specs.Prelude.{◌≡◌, Bool, false, List, [], ◌∷◌};
ghost use Rattle.x7_part.specs.Part.{PartData};
ghost use Rattle.x7_engine.specs.Kept.{on_the_bench};
ghost use Rattle.x7_engine.specs.Standing.{DeviceStandsFor, due_count, frames_due};
ghost use Rattle.x7_jtag.specs.Events.{events_of};
ghost use Rattle.x7_jtag.specs.Port.{new_port, port_after, words_read_out};
ghost use Rattle.x7_jtag.specs.Queue.{QueueIsSound, queue_after};
ghost use Rattle.x7_jtag.specs.Shown.{bytes_taken, state_shown, state_with_due, port_words_due};
ghost use Rattle.x7_jtag.specs.Tap.{ForEachPort};
ghost use Rattle.x7_jtag.specs.State.{PortClock, state_after, test_logic_reset, tms_one};
ghost use Rattle.x7_jtag.specs.declared.state.State.{State};

/// Five clocks of TMS 1 reach Test-Logic-Reset from every state.
pub fn five_ones_reset()
    ensures { (s : State) (a b c d e : Bool) → state_after s (tms_one a ∷ tms_one b ∷ tms_one c ∷ tms_one d ∷ tms_one e ∷ []) ≡ test_logic_reset }
{}

/// The device of a tap took the bytes that its port gave, or those up to the device's stop. As many words are due as
/// come after the one whose bits go out. And the device's state (`Device::state`) is that of the bytes that the device
/// took, where FAR counts the words of frame data that the port took of the device.
pub fn devices_take_what_is_given()
    ensures taken { ForEachPort (λ part d p. DeviceStandsFor part on_the_bench false d (bytes_taken part p)) }
    ensures due { ForEachPort (λ part d p. due_count d.registers.values.due ≡ port_words_due part p) }
    ensures shows { ForEachPort (λ part d p. state_with_due part p (frames_due d.registers.values.due) ≡ state_shown part p) }
{}

/// After any clocks, before which the port was new, no more bits have gone to TDO or been dropped than its device has
/// read out (32 a word). The port holds back at most 64 bytes, and none unless a word read out, or a part of one, still
/// waits to go out. What was given to the device and what is held are bytes.
pub fn queues_are_sound()
    ensures { (part : PartData) (cs : List PortClock) → QueueIsSound (words_read_out part) (port_after part cs).queue }
{}

/// The queue of a port is that of the events of its clocks: bytes offered, bits shifted out, and resets of the device.
pub fn queues_are_those_of_events()
    ensures { (part : PartData) (cs : List PortClock) → (port_after part cs).queue ≡ queue_after (words_read_out part) (events_of part new_port cs) }
{}
