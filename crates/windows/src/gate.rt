//! Gates. A worker calls its gate when it has taken a process, before that process makes its first step of the window.
use process_api::Pid;
use std::marker::Sync;
use std::sync::Wait;

/// Sees the workers of each window at work. A worker calls it after each process that it takes.
pub trait Gate: Sync {
    /// Worker `worker`, counted from 1 in each window, has taken process `pid`, which has made no step of this window.
    /// Number 0 is the starter, which takes what no worker took. It may wait; the process stands still as long.
    fn entered<R: Wait>(&self, rt: &R, worker: u16, pid: Pid);
}

/// A gate that lets each worker pass at once.
#[derive(Drop)]
pub struct OpenGate;

impl Gate for OpenGate {
    fn entered<R: Wait>(&self, _rt: &R, _worker: u16, _pid: Pid) {}
}
