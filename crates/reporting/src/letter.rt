//! Letters between different processes.

use process_api::{Kind, Pid};

/// What became of a letter.
#[derive(Clone, Copy)]
pub enum LetterFate {
    /// Its receiver took it.
    Taken,
    /// Its link lost it.
    Lost,
    /// Its receiver had crashed at the tick when it was due.
    Dead,
    /// It was due at the horizon or after, when the run was over; whether its receiver had crashed then isn't asked.
    Late,
}

/// A letter from one process to another.
#[derive(Clone, Copy)]
pub struct Letter {
    /// The tick of the step that sent it.
    pub sent: u32,
    /// The process that sent it.
    pub sender: Pid,
    /// The process that it was sent to: another one.
    pub receiver: Pid,
    /// Its number on the link from the sender to the receiver, from 1, lost ones counted too.
    pub number: u64,
    /// What it says: the kind of the entry of whoever takes it.
    pub kind: Kind,
    /// The tick when it is due, unless it was lost. It can be the horizon or a later tick.
    pub due: Option<u64>,
    /// What became of it.
    pub fate: LetterFate,
}
