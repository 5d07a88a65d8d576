//! Where things stand in a picture of letters.
ghost use Rattle.std.specs.Prelude.{◌≡◌, ◌≤◌, ◌+◌, ◌-◌, ◌*◌};
ghost use Rattle.drawing.specs.Frame.{head_room, lane_height, lanes_bottom, line_of, own_top};

use crate::layout::{LANE, REMARK, TOP};
use process_api::Pid;

/// How high the room of a process is.
fn lane_height(processes: u16) -> u32
    requires { processes ≤ 256 }
    ensures value { result ≡ lane_height processes }
    ensures small { result ≤ 2340 }
{
    u32::from(processes) * REMARK + LANE
}

/// Where the rooms end, from the top.
#[tactic(auto, unfolding(crate::specs::Frame::lanes_bottom))]
pub(crate) fn lanes_bottom(processes: u16) -> u32
    requires { processes ≤ 256 }
    ensures value { result ≡ lanes_bottom processes }
    ensures high { result ≤ 600000 }
{
    TOP + u32::from(processes) * lane_height(processes)
}

/// Where the room of a process begins, from the top.
fn lane_top(processes: u16, process: Pid) -> u32
    requires { processes ≤ 256 }
    ensures value { result ≡ head_room + (process - 1) * lane_height processes }
    ensures high { result ≤ 600000 }
{
    TOP + u32::from(process.number() - 1) * lane_height(processes)
}

/// Where the row of a process itself begins, from the top.
#[tactic(auto, unfolding(crate::specs::Frame::own_top))]
pub(crate) fn own_top(processes: u16, process: Pid) -> u32
    requires { processes ≤ 256 }
    ensures value { result ≡ own_top processes process }
    ensures high { result ≤ 700000 }
{
    lane_top(processes, process) + u32::from(processes) * REMARK
}

/// Where the line of a process is, from the top.
pub(crate) fn line_of(processes: u16, process: Pid) -> u32
    requires { processes ≤ 256 }
    ensures value { result ≡ line_of processes process }
    ensures high { result ≤ 700008 }
{
    own_top(processes, process) + 8
}

/// How many places for texts of an observer stand above that for a subject.
fn rows_above(observer: Pid, subject: Pid) -> u32
    ensures { result ≤ 256 }
{
    if subject == observer {
        0
    } else if subject < observer {
        u32::from(subject.number())
    } else {
        u32::from(subject.number() - 1)
    }
}

/// Where the texts of what a process makes of another stand, from the top.
pub(crate) fn remark_of(processes: u16, observer: Pid, subject: Pid) -> u32
    requires { processes ≤ 256 }
{
    lane_top(processes, observer) + rows_above(observer, subject) * REMARK + 11
}
