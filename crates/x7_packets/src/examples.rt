//! Worked examples: the definitions compute to these values, which follow from the format's rules.
ghost use Rattle.std.specs.Prelude.{◌≡◌, [], ◌∷◌, ◌++◌};
ghost use Rattle.x7_packets.specs.ByHand.{packets_of, reading_of};
ghost use Rattle.x7_packets.specs.Examples.{bad, bad_at, desync, desynced, filler, in_session, nop, opened, opening, read, read_at, reading_of_place, session_with, synced, then_gap, session_with_tail, write_at, write_packet};
ghost use Rattle.x7_packets.specs.History.{executed, history_of};
ghost use Rattle.x7_packets.specs.Reading.{Searching, Synced};
ghost use Rattle.x7_packets.specs.CheckedWrites.{checked_writes, write_to};

/// Where the sync word is found.
pub fn examples_of_the_search()
    ensures three_bytes_alone { reading_of (0xAA ∷ 0x99 ∷ 0x55 ∷ 0xAA ∷ []) ≡ reading_of_place (Searching (0xAA ∷ 0x99 ∷ 0x55 ∷ 0xAA ∷ [])) }
    ensures inside_a_failed_match { reading_of (0xFF ∷ 0xAA ∷ synced (0x20000000 ∷ []))
        ≡ reading_of_place (Synced (0xFF ∷ 0xAA ∷ []) (nop 0x20000000 ∷ []) []) }
    ensures in_the_place_of_a_header { reading_of (synced (0x30004000 ∷ 0xAA995566 ∷ 0x50000001 ∷ 5 ∷ []))
        ≡ in_session (opened 0x30004000 2 ∷ filler 0xAA995566 ∷ write_packet 0x50000001 2 5 ∷ []) }
    ensures in_a_payload { reading_of (synced (0x30004001 ∷ 0xAA995566 ∷ []))
        ≡ in_session (write_packet 0x30004001 2 0xAA995566 ∷ []) }
{}

/// What words in a header's place mean.
pub fn examples_of_headers()
    ensures without_effect { packets_of (0xFFFFFFFF ∷ 0x000000BB ∷ 0x11220044 ∷ 0x20000000 ∷ [])
        ≡ filler 0xFFFFFFFF ∷ filler 0x000000BB ∷ filler 0x11220044 ∷ nop 0x20000000 ∷ [] }
    ensures write_and_read { packets_of (0x30018001 ∷ 0x03651093 ∷ 0x2800E001 ∷ [])
        ≡ write_packet 0x30018001 12 0x03651093 ∷ read 0x2800E001 7 1 ∷ [] }
    ensures bits_without_effect { packets_of (0x2FFC7FFF ∷ []) ≡ read 0x2FFC7FFF 3 2047 ∷ [] }
    ensures type_2_alone { packets_of (0x50000001 ∷ 0x48000001 ∷ 0x20000000 ∷ [])
        ≡ bad 0x50000001 ∷ bad 0x48000001 ∷ nop 0x20000000 ∷ [] }
    ensures type_2_after_write { packets_of (0x30004000 ∷ 0x50000002 ∷ 17 ∷ 18 ∷ [])
        ≡ opened 0x30004000 2 ∷ opening 0x50000002 2 2 (17 ∷ 18 ∷ []) ∷ [] }
    ensures type_2_after_read { packets_of (0x30004000 ∷ 0x28006000 ∷ 0x48000065 ∷ 0x50000001 ∷ 7 ∷ [])
        ≡ opened 0x30004000 2 ∷ read 0x28006000 3 0 ∷ read 0x48000065 3 101 ∷ write_packet 0x50000001 3 7 ∷ [] }
    ensures no_header { packets_of (0x30008000 ∷ 0x38000000 ∷ 0x40000000 ∷ 0x58000000 ∷ 0xE0000000 ∷ [])
        ≡ opened 0x30008000 4 ∷ bad 0x38000000 ∷ bad 0x40000000 ∷ bad 0x58000000 ∷ bad 0xE0000000 ∷ [] }
{}

/// Where sessions and bytes end.
pub fn examples_of_ends()
    ensures upper_bits_of_desync { reading_of (synced (0x30008003 ∷ 1 ∷ 0xFFFFFFED ∷ 2 ∷ []))
        ≡ then_gap (session_with [] (opening 0x30008003 4 3 (1 ∷ 0xFFFFFFED ∷ []) ∷ []) ∷ []) (0 ∷ 0 ∷ 0 ∷ 2 ∷ []) }
    ensures thirteen_elsewhere { reading_of (synced (0x30002001 ∷ 13 ∷ []))
        ≡ in_session (write_packet 0x30002001 1 13 ∷ []) }
    ensures two_sessions { reading_of (synced desync ++ 0xFF ∷ synced (0x50000001 ∷ desync) ++ 1 ∷ [])
        ≡ then_gap (desynced [] [] ∷ desynced (0xFF ∷ []) (bad 0x50000001 ∷ []) ∷ []) (1 ∷ []) }
    ensures cut_off_count { reading_of (synced (0x30004004 ∷ 17 ∷ []))
        ≡ in_session (opening 0x30004004 2 4 (17 ∷ []) ∷ []) }
    ensures tail_of_one { reading_of (synced (0x20000000 ∷ []) ++ 0x30 ∷ [])
        ≡ session_with_tail (nop 0x20000000 ∷ []) (0x30 ∷ []) }
    ensures tail_of_two { reading_of (synced (0x20000000 ∷ []) ++ 0x30 ∷ 0 ∷ [])
        ≡ session_with_tail (nop 0x20000000 ∷ []) (0x30 ∷ 0 ∷ []) }
    ensures tail_of_three { reading_of (synced (0x20000000 ∷ []) ++ 0x30 ∷ 0 ∷ 0x80 ∷ [])
        ≡ session_with_tail (nop 0x20000000 ∷ []) (0x30 ∷ 0 ∷ 0x80 ∷ []) }
{}

/// What a stream asks of the registers: each access at its place, the newest first. The commands that it executes,
/// where a write to FAR executes RCRC again, and DESYNC not. And the writes that the running check is over, those since
/// the last RCRC, where one to LOUT is left out.
pub fn examples_of_the_history()
    ensures accesses { history_of (synced (0x30008001 ∷ 7 ∷ 0x30002001 ∷ 0 ∷ [])) ≡ write_at 1 0 20 ∷ write_at 4 7 12 ∷ [] }
    ensures commands { executed (history_of (synced (0x30008001 ∷ 7 ∷ 0x30002001 ∷ 0 ∷ []))) ≡ 7 ∷ 7 ∷ [] }
    ensures sessions { history_of (0xFF ∷ synced (desync ++ 0xAA995566 ∷ 0x30002001 ∷ 5 ∷ 0x28006002 ∷ 0xE0000000 ∷ []))
        ≡ bad_at 0xE0000000 33 ∷ read_at 3 2 29 ∷ write_at 1 5 25 ∷ write_at 4 13 13 ∷ [] }
    ensures desync_once { executed (history_of (0xFF ∷ synced (desync ++ 0xAA995566 ∷ 0x30002001 ∷ 5 ∷ []))) ≡ 13 ∷ [] }
    ensures cleared { checked_writes (history_of (synced (0x30008001 ∷ 7 ∷ 0x30002001 ∷ 0 ∷ []))) ≡ [] }
    ensures not_cleared { checked_writes (history_of (synced (0x30008001 ∷ 7 ∷ 0x30018001 ∷ 9 ∷ 0x30010001 ∷ 1 ∷ 0x30008001 ∷ 1 ∷ [])))
        ≡ write_to 4 1 ∷ write_to 12 9 ∷ [] }
{}
