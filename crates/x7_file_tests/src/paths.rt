//! Files that a test makes and removes: their paths, and what stands in them.
use std::alloc::Global;
use std::path::PathBuf;
use std::{env, process};

/// A path in the folder of temporary files that no other test has, nor another run; none where that can't be told.
pub(crate) fn path_of(rt: &HostRuntime, test: &str) -> Option<PathBuf> {
    let folder = env::temp_dir(rt).ok()?;
    let name = format!(in rt.alloc(); "x7-files-{}-{test}", process::id(rt.process())).ok()?;
    folder.join(rt.alloc(), name.as_str()).ok()
}

/// Bytes by their ends and values: up to each of these lengths one value again and again.
pub(crate) fn filled(alloc: Global, parts: &[(usize, u8)]) -> Option<Vec<u8>> {
    let mut bytes = Vec::new(alloc);
    for (length, value) in parts {
        bytes.resize(*length, *value).ok()?;
    }
    Some(bytes)
}
