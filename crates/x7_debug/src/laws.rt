//! Laws of orders, of scripts and of where `until` leads. The functions do nothing: their contracts are the laws.
ghost use Rattle.std.specs.Prelude.{◌≡◌, ◌≤◌, ℕ, List, Result};
ghost use Rattle.x7_words.specs.Word.{AreBytes};
ghost use Rattle.x7_part.specs.Part.{PartData};
ghost use Rattle.x7_debug.specs.Position.{HoldsNowhereAfter, IsLeastAfter, last_of, until_of};
ghost use Rattle.x7_debug.specs.Script.{FitsOrder, HasScript, IsScriptOf, order_text};
ghost use Rattle.x7_debug.specs.declared.fault.ScriptFault.{ScriptFault};
ghost use Rattle.x7_debug.specs.declared.order.Order.{Order};
ghost use Rattle.x7_debug.specs.declared.order.Stop.{Stop};
ghost use Rattle.x7_debug.specs.declared.order.Stop.TheVariants.{Stopped};

/// A line is that of at most one order.
pub fn one_order()
    ensures { (a b : Order) → FitsOrder a → FitsOrder b → order_text a ≡ order_text b → a ≡ b }
{}

/// A text comes to at most one thing: its orders, or its first bad line.
pub fn one_script()
    ensures { (text : List ℕ) (a b : Result (List Order) ScriptFault) → IsScriptOf text a → IsScriptOf text b → a ≡ b }
{}

/// Each text comes to its orders, or to its first bad line.
pub fn every_script_is_read()
    ensures { (text : List ℕ) → HasScript text }
{}

/// `until` leads to the least later position where its stop holds, and to the last one where there is none. `until
/// stopped` leads to the last one always, since what stops a device comes there alone.
pub fn until_leads_to_the_least()
    ensures holds { (part : PartData) (stream : List ℕ) (stop : Stop) (at n : ℕ) → IsLeastAfter part stream stop at n → until_of part stream stop at ≡ n }
    ensures holds_nowhere { (part : PartData) (stream : List ℕ) (stop : Stop) (at : ℕ) → at ≤ last_of part stream → HoldsNowhereAfter part stream stop at
        → until_of part stream stop at ≡ last_of part stream }
    ensures stopped { (part : PartData) (stream : List ℕ) (at : ℕ) → AreBytes stream → at ≤ last_of part stream → until_of part stream Stopped at ≡ last_of part stream }
{}
