//! Digits of either case, as other tools write them.
ghost use Rattle.std.specs.Prelude.{◌≡◌, ◌*◌, length, Some, None, MatchBool};
ghost use Rattle.x7_text.specs.EitherCase.{bytes_of_pairs};

/// Reads the bytes of pairs of hexadecimal digits of either case, the higher digit first: `false` where one of these is
/// no digit, and then `bytes` may hold anything.
pub fn read_pairs(bytes: &mut [u8], digits: &[u8]) -> bool
    requires { length digits.now ≡ 2 * length bytes.old }
    ensures value { MatchBool result (bytes_of_pairs digits.now ≡ Some bytes.new) (bytes_of_pairs digits.now ≡ None) }
    ensures length { length bytes.new ≡ length bytes.old }
{
    hex::decode_to_slice(digits, bytes).is_ok()
}
