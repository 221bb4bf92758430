//! The script of a text, line by line.
ghost use Rattle.std.specs.Prelude.{◌≡◌, ◌⊎◌, ℕ, List, [], ◌∷◌, ◌++◌, Ok, Err, IfOk, IfErr, OnOk};
ghost use Rattle.x7_debug.specs.Script.{AreOrders, IsNoOrder, IsScriptOf};
ghost use Rattle.x7_debug.specs.declared.fault.ScriptFault.{ScriptFault};

use crate::fault::ScriptFault;
use crate::line::order_of;
use crate::order::Order;
use std::alloc::Global;
use std::marker::Model;
use x7_text::{first_line, means_nothing};

/// The orders of a script, in the order of its lines.
#[derive(Drop)]
pub struct Script {
    orders: Vec<Order>,
}

impl Model for Script {
    ghost use Rattle.std.specs.Prelude.{List};
    ghost use Rattle.x7_debug.specs.declared.order.Order.{Order};

    ghost Value = { List Order };

    ghost view = { λ s. s.orders.items };
}

impl Script {
    /// The orders.
    pub fn orders(&self) -> &[Order]
        ensures { result.now ≡ self.now }
    {
        &self.orders
    }
}

/// Takes line `line_number`, counted from 1: where it has a meaning, its order goes after those of the lines before.
fn take_line(orders: &mut Vec<Order>, line_number: u64, line: &[u8]) -> Result<(), ScriptFault>
    ensures taken { OnOk result ((before : List (List ℕ)) → AreOrders before orders.old.items → AreOrders (before ++ line.now ∷ []) orders.new.items) }
    ensures fault { IfErr result (λ fault. (fault ≡ ScriptFault.NoMemory) ⊎ ((fault ≡ ScriptFault.Line line_number) × IsNoOrder line.now)) }
{
    if means_nothing(line) {
        return Ok(());
    }
    let Some(order) = order_of(line) else {
        return Err(ScriptFault::Line(line_number));
    };
    match orders.push(order) {
        Ok(()) => Ok(()),
        Err(_) => Err(ScriptFault::NoMemory),
    }
}

/// The script of a text; or the number of its first line that is none of a script's; or want of memory.
///
/// A line is empty, a comment that `#` begins, or an order (this project's choice). An order is `step N`, `back N` or
/// `go N`, with a number of 32 bits in decimal without leading zeros; or `until synced`, `until searching`,
/// `until stopped` or `until phase P` with P from 0 to 7. Or it is `regs`, `phase`, or `frame FAR`, the address in
/// eight upper-case hexadecimal digits. One space stands between the words, and the last line may lack its end.
pub fn script_of(alloc: Global, text: &[u8]) -> Result<Script, ScriptFault>
    ensures script { IfOk result (λ script. IsScriptOf text.now (Ok script)) }
    ensures fault { IfErr result (λ fault. (fault ≡ ScriptFault.NoMemory) ⊎ IsScriptOf text.now (Err fault)) }
{
    let mut orders = Vec::new(alloc);
    let mut rest = text;
    let mut line_number: u64 = 0;
    loop {
        let (line, more) = first_line(rest);
        line_number += 1;
        take_line(&mut orders, line_number, line)?;
        match more {
            Some(after) => rest = after,
            None => return Ok(Script { orders }),
        }
    }
}
