//! Counts that never fall.
ghost use Rattle.std.specs.Prelude.{◌≡◌, ◌≤◌, ◌+◌};
ghost use Rattle.x7_words.specs.Count.{ends_counted, raised};

/// The next count, which stops at 2^64 - 1.
pub fn raised(count: u64) -> u64
    ensures value { result ≡ raised count }
    ensures never_falls { count ≤ result }
    ensures at_most_one_more { result ≤ count + 1 }
{
    count.saturating_add(1)
}

/// The count of reads that gave nothing, after a read that gave this many bytes.
pub fn ends_counted(given: usize, count: u64) -> u64
    ensures value { result ≡ ends_counted given count }
    ensures at_most_one_more { result ≤ count + 1 }
{
    if given == 0 { raised(count) } else { count }
}
