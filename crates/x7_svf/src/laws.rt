//! The law of the bits of a scan. The function does nothing: its contract is the law.
ghost use Rattle.std.specs.Prelude.{◌≡◌, ◌/◌, ◌%◌, ◌^◌, ◌==◌, ℕ, true, List};
ghost use Rattle.x7_svf.specs.Bits.{bit_of};
ghost use Rattle.x7_svf.specs.Fields.{are_hex, hex_value};

/// Bit i of hexadecimal digits, counted from 0, the lowest, is bit i of their value.
pub fn bits_are_those_of_the_value()
    ensures { (ds : List ℕ) (i : ℕ) → are_hex ds ≡ true → bit_of ds i ≡ (hex_value ds / 2 ^ i % 2 == 1) }
{}
