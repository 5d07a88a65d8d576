//! Why a transcript can't be gone through.

use shell::InputError;
use std::alloc::AllocError;
use std::io;
use std::str::Utf8Error;
use thiserror::Error;

/// Why a transcript, or a case of it, can't be gone through.
#[derive(Debug, Drop, Error)]
pub enum Fault {
    #[error("out of memory")]
    Memory(#[from] AllocError),
    #[error("{0}")]
    Input(#[from] InputError),
    #[error("{0}")]
    Text(#[from] Utf8Error),
    #[error("writing failed")]
    Output(#[from] io::Error),
    #[error("no file has this name")]
    NoFile,
    #[error("the file has no such lines")]
    NoLines,
    #[error("no program has this name")]
    NoCommand,
}
