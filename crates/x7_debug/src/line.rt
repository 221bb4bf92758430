//! One line of a script.
ghost use Rattle.std.specs.Prelude.{◌≡◌, ◌≢◌, ◌<◌, ◌^◌, ◌++◌, ℕ, decimal, MatchOption};
ghost use Rattle.x7_debug.specs.Script.{FitsOrder, FitsStop, order_text, stop_text};
ghost use Rattle.x7_debug.specs.declared.order.Order.{Order};
ghost use Rattle.x7_debug.specs.declared.order.Stop.{Stop};

use crate::order::{Order, Stop};
use x7_text::{after, decimal_below, number_of_decimal, word_of_hex};
use x7_words::is_same;

/// The stop that the words after `until` name, and `None` where they name none.
fn stop_of(words: &[u8]) -> Option<Stop>
    ensures { MatchOption result ((stop : Stop) → FitsStop stop → words.now ≢ stop_text stop) (λ stop. FitsStop stop × (words.now ≡ stop_text stop)) }
{
    if is_same(words, b"synced") {
        return Some(Stop::Synced);
    }
    if is_same(words, b"searching") {
        return Some(Stop::Searching);
    }
    if is_same(words, b"stopped") {
        return Some(Stop::Stopped);
    }
    let digits = after(words, b"phase ")?;
    let phase = decimal_below(digits, 8)?;
    Some(Stop::Phase(phase as u8))
}

/// The number of a line that is `words` and then a number of 32 bits in decimal, and `None` of any other line.
fn number_after(line: &[u8], words: &[u8]) -> Option<u32>
    ensures { MatchOption result ((n : ℕ) → n < 2 ^ 32 → line.now ≢ words.now ++ decimal n) (λ n. (n < 2 ^ 32) × (line.now ≡ words.now ++ decimal n)) }
{
    let digits = after(line, words)?;
    number_of_decimal(digits)
}

/// The order of a line, and `None` of a line that is no order's.
pub(crate) fn order_of(line: &[u8]) -> Option<Order>
    ensures { MatchOption result ((order : Order) → FitsOrder order → line.now ≢ order_text order) (λ order. FitsOrder order × (line.now ≡ order_text order)) }
{
    if is_same(line, b"regs") {
        return Some(Order::Regs);
    }
    if is_same(line, b"phase") {
        return Some(Order::Phase);
    }
    if let Some(count) = number_after(line, b"step ") {
        return Some(Order::Step(count));
    }
    if let Some(count) = number_after(line, b"back ") {
        return Some(Order::Back(count));
    }
    if let Some(position) = number_after(line, b"go ") {
        return Some(Order::Go(position));
    }
    if let Some(words) = after(line, b"until ") {
        let stop = stop_of(words)?;
        return Some(Order::Until(stop));
    }
    let digits = after(line, b"frame ")?;
    let far = word_of_hex(digits)?;
    Some(Order::Frame(far))
}
