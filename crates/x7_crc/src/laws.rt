//! Laws of the check. The functions do nothing: their contracts are the laws.
ghost use Rattle.std.specs.Prelude.{◌≡◌, ◌<◌, ◌*◌, ◌^◌, ◌++◌, false, List, [], ◌∷◌, bit_xor, true, ℕ};
ghost use Rattle.x7_regs.specs.Register.{number_of, reg_number_count};
ghost use Rattle.x7_regs.specs.declared.register.Reg.TheVariants.{Lout};
ghost use Rattle.x7_packets.specs.History.{Bad, entry, History, Read, Write};
ghost use Rattle.x7_packets.specs.CheckedWrites.{clears, RegisterWrite};
ghost use Rattle.x7_crc.specs.RunningCheck.{IsCheckedWrite, running_check};
ghost use Rattle.x7_crc.specs.Polynomial.{from_highest, IsRemainder, mirrored};
ghost use Rattle.x7_crc.specs.Check.{bits_of_writes, check_after, check_of, check_after_one, generator, IsCheckAfter};

/// The check of writes is a number of 32 bits; mirrored, it is the remainder, by the polynomial of CRC-32C, of the
/// writes' bits times x^32. The check of writes after an earlier check is, mirrored, the remainder of their `dividend`,
/// in which the earlier check counts. It is the only number of 32 bits of which that holds (`unique`).
pub fn checks_are_remainders()
    ensures most { (before : ℕ) (writes : List RegisterWrite) → check_after before writes < 2 ^ 32 }
    ensures remainder { (writes : List RegisterWrite)
        → IsRemainder (from_highest (bits_of_writes writes) * 2 ^ 32) generator 32 (mirrored 32 (check_of writes)) }
    ensures continued { (before : ℕ) (writes : List RegisterWrite) → before < 2 ^ 32 → IsCheckAfter before writes (check_after before writes) }
    ensures unique { (before check : ℕ) (writes : List RegisterWrite) → before < 2 ^ 32 → check < 2 ^ 32 → IsCheckAfter before writes check
        → check ≡ check_after before writes }
{}

/// The check of no writes is the check before them, and writes in two parts have the check of both.
pub fn checks_continue()
    ensures no_writes { (before : ℕ) → before < 2 ^ 32 → check_after before [] ≡ before }
    ensures parts { (before : ℕ) (first second : List RegisterWrite) → before < 2 ^ 32
        → check_after before (first ++ second) ≡ check_after (check_after before first) second }
{}

/// The check after one write is that of a first write, to the same register, of the word XOR the check before.
pub fn checks_are_linear()
    ensures { (before register word : ℕ) → before < 2 ^ 32 → register < reg_number_count → word < 2 ^ 32
        → check_after_one before register word ≡ check_after_one 0 register (bit_xor word before) }
{}

/// The running check of a history begins at 0, is 0 after an access that clears it, goes on by each other write but
/// that of LOUT, and stays at all else.
pub fn checks_of_histories()
    ensures begins { running_check [] ≡ 0 }
    ensures cleared { (h : History) (register word place : ℕ) → clears h (Write register word) ≡ true
        → running_check (entry (Write register word) place ∷ h) ≡ 0 }
    ensures written { (h : History) (register word place : ℕ) → IsCheckedWrite h register word
        → running_check (entry (Write register word) place ∷ h) ≡ check_after_one (running_check h) register word }
    ensures left_out { (h : History) (word place : ℕ) → clears h (Write (number_of Lout) word) ≡ false
        → running_check (entry (Write (number_of Lout) word) place ∷ h) ≡ running_check h }
    ensures read { (h : History) (register count place : ℕ) → running_check (entry (Read register count) place ∷ h) ≡ running_check h }
    ensures bad { (h : History) (word place : ℕ) → running_check (entry (Bad word) place ∷ h) ≡ running_check h }
{}
