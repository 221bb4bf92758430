//! What a script shows of a stream.
ghost use Rattle.std.specs.Prelude.{◌≡◌, ◌++◌, IfOk, OnErr, OnOk};
ghost use Rattle.x7_memory.specs.PartFrames.{AreFramesOf, frame_at};
ghost use Rattle.x7_debug.specs.Session.{MovesTo};
ghost use Rattle.x7_debug.specs.Showing.{FollowsOrders, FollowsSomeOrders, frame_shown, none_text, position_after, position_text, order_shown, transcript_of};

use crate::order::Order;
use crate::script::Script;
use crate::session::Session;
use std::alloc::Global;
use x7_engine::Snapshot;
use x7_memory::Memory;
use x7_part::Part;
use x7_report::{end_words, frame_line, phase_line, reg_lines};
use x7_text::{hex_of_word, make_room, put, put_decimal};
use x7_words::NoMemory;

/// The most bytes of `at `, a position of up to 20 digits, and a blank.
const POSITION_ROOM: usize = 24;

/// The bytes of the line `none FAR`, with its end.
const NONE_LINE_ROOM: usize = 14;

/// Appends where a move led: the position, and where the bytes up to it end.
#[tactic(auto, unfolding(crate::specs::Showing::position_text))]
fn put_position(text: &mut Vec<u8>, snapshot: &Snapshot) -> Result<(), NoMemory>
    ensures { OnOk result (text.new.items ≡ text.old.items ++ position_text snapshot.now) }
{
    make_room(text, POSITION_ROOM)?;
    put(text, b"at ");
    put_decimal(text, snapshot.taken);
    put(text, b" ");
    end_words(text, snapshot)?;
    make_room(text, 1)?;
    put(text, b"\n");
    Ok(())
}

/// Appends the line of an address where there is no frame.
#[tactic(auto, unfolding(crate::specs::Showing::none_text))]
fn none_line(text: &mut Vec<u8>, far: u32) -> Result<(), NoMemory>
    ensures { OnOk result (text.new.items ≡ text.old.items ++ none_text far) }
{
    make_room(text, NONE_LINE_ROOM)?;
    put(text, b"none ");
    put(text, &hex_of_word(far));
    put(text, b"\n");
    Ok(())
}

/// Appends the line of the frame at an address, or `none FAR` where there is no frame.
fn put_frame_shown(
    text: &mut Vec<u8>,
    part: &Part,
    memory: &Memory,
    far: u32,
) -> Result<(), NoMemory>
    requires { AreFramesOf part.now memory.now }
    ensures { OnOk result (text.new.items ≡ text.old.items ++ frame_shown far (frame_at part.now memory.now far)) }
{
    match memory.frame(part, far) {
        Some(words) => frame_line(text, far, words),
        None => none_line(text, far),
    }
}

/// Appends what an order shows where it left the session.
fn show(text: &mut Vec<u8>, session: &Session, order: Order) -> Result<(), NoMemory>
    ensures { OnOk result (text.new.items ≡ text.old.items ++ order_shown session.now.part session.now.stream session.now.at order) }
{
    let device = session.device();
    match order {
        Order::Step(_) | Order::Back(_) | Order::Go(_) | Order::Until(_) => {
            put_position(text, &device.state())
        }
        Order::Regs => reg_lines(text, &device.state()),
        Order::Phase => phase_line(text, &device.state()),
        Order::Frame(far) => put_frame_shown(text, device.part(), device.memory(), far),
    }
}

impl Session {
    /// Follows an order, where it is a move.
    fn follow(&mut self, order: Order)
        ensures { MovesTo self.old self.new (position_after self.old.part self.old.stream self.old.at order) }
    {
        match order {
            Order::Step(count) => self.step(u64::from(count)),
            Order::Back(count) => self.back(u64::from(count)),
            Order::Go(position) => self.go(u64::from(position)),
            Order::Until(stop) => self.until(stop),
            Order::Regs | Order::Phase | Order::Frame(_) => (),
        }
    }
}

/// What a script shows of a session's stream, from position 0 on (this project's choice). A move shows `at N` and where
/// the first N bytes end; `regs` the `reg` lines; `phase` the line of startup; `frame` the line of the frame, also
/// where all its words are 0, or `none FAR` where the part has no such address. After `NoMemory` the session stands
/// where the first orders, none of them or some or all, left it.
pub fn transcript(
    alloc: Global,
    session: &mut Session,
    script: &Script,
) -> Result<Vec<u8>, NoMemory>
    requires { session.old.at ≡ 0 }
    ensures text { IfOk result (λ text. text.items ≡ transcript_of session.old.part session.old.stream script.now) }
    ensures all_orders { OnOk result (FollowsOrders session.old session.new script.now) }
    ensures some_orders { OnErr result (FollowsSomeOrders session.old session.new script.now) }
{
    let mut text = Vec::new(alloc);
    for order in script.orders() {
        session.follow(*order);
        show(&mut text, session, *order)?;
    }
    Ok(text)
}
