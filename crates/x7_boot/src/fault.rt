//! Why there is no image, and no boot.

use thiserror::Error;

/// Why two streams make no image.
#[derive(Clone, Copy, Debug, Drop, Error)]
pub enum ImageFault {
    /// The image would be larger than a flash may be.
    #[error("the image would be larger than a flash may be")]
    TooLong,
    /// There was no memory for the image.
    #[error("no memory")]
    NoMemory,
}

/// Why a boot came to no end.
#[derive(Clone, Copy, Debug, Drop, Error)]
pub enum BootFault {
    /// A read of the flash failed.
    #[error("a read of the flash failed")]
    Failed,
    /// The flash is larger than a flash may be.
    #[error("the flash is larger than one may be")]
    TooLarge,
    /// There was no memory for the boot.
    #[error("no memory")]
    NoMemory,
}
