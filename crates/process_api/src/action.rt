//! Actions and notes.
ghost use Rattle.std.specs.Prelude.{◌≡◌, ◌≤◌, ◌++◌, ◌∷◌, [], OnOk, OnErr};
ghost use Rattle.process_api.specs.{Answer.{to_all, to_others}, Place.{most_processes}};

use crate::message::{Payload, Tag};
use crate::pid::Pid;
use std::alloc::AllocError;

/// What a step leaves for the reader of a trace.
#[derive(Clone, Copy, Debug, PartialEq, Eq)]
pub enum Note {
    /// The process began to suspect another, on layer 1 (the base detector) or 2 (the reduction's output).
    Suspect { layer: u8, who: Pid },
    /// The process stopped suspecting another, on layer 1 or 2.
    Trust { layer: u8, who: Pid },
    /// The algorithm entered a round, 1 to 1,000,000,000,000.
    Round(u64),
    /// The algorithm decided this value, 0 to 4,294,967,295.
    Decided(u32),
    /// The algorithm ended with no value.
    NoValue,
}

/// What a process does in one step.
#[derive(Debug, PartialEq, Eq, Drop)]
pub enum Action {
    /// Sends a letter, to itself too.
    Send { to: Pid, payload: Payload },
    /// Asks to be woken after a pause of at least 1 tick, for what the tag says.
    Wake { pause: u32, tag: Tag },
    /// Notes something in the trace.
    Note(Note),
}

/// Appends a letter.
///
/// # Errors
///
/// `AllocError` where memory was refused; `out` is as before.
#[inline(always)]
pub fn send_to(out: &mut Vec<Action>, to: Pid, payload: Payload) -> Result<(), AllocError>
    ensures ok { OnOk result (out.new.items ≡ out.old.items ++ Action.Send to payload ∷ []) }
    ensures err { OnErr result (out.new.items ≡ out.old.items) }
{
    // The check wants the type of a note named where an action is pushed.
    let _none: Option<Note> = None;
    // room first: so the action is made in its place
    out.reserve(1)?;
    out.push_reserved(Action::Send { to, payload });
    Ok(())
}

/// Appends a letter to each of processes 1 to `processes`, in rising order, to the sender itself too.
///
/// # Errors
///
/// `AllocError` where memory was refused; `out` may hold a part of the letters.
#[inline(always)]
pub fn send_to_all(
    out: &mut Vec<Action>,
    processes: u16,
    payload: &Payload,
) -> Result<(), AllocError>
    requires { processes ≤ most_processes }
    ensures { OnOk result (out.new.items ≡ out.old.items ++ to_all processes payload.now) }
{
    for before in 0..processes {
        send_to(out, Pid::after(before), payload.copy()?)?;
    }
    Ok(())
}

/// Appends a letter to each of processes 1 to `processes` but the sender, process `own`, in rising order.
///
/// # Errors
///
/// `AllocError` where memory was refused; `out` may hold a part of the letters.
#[inline(always)]
pub fn send_to_others(
    out: &mut Vec<Action>,
    processes: u16,
    own: Pid,
    payload: &Payload,
) -> Result<(), AllocError>
    requires { processes ≤ most_processes }
    ensures { OnOk result (out.new.items ≡ out.old.items ++ to_others processes own payload.now) }
{
    for before in 0..processes {
        let q = Pid::after(before);
        if q != own {
            send_to(out, q, payload.copy()?)?;
        }
    }
    Ok(())
}

/// Appends a wake after `pause` ticks.
///
/// # Errors
///
/// `AllocError` where memory was refused; `out` is as before.
pub fn wake_after(out: &mut Vec<Action>, pause: u32, tag: Tag) -> Result<(), AllocError>
    ensures ok { OnOk result (out.new.items ≡ out.old.items ++ Action.Wake pause tag ∷ []) }
    ensures err { OnErr result (out.new.items ≡ out.old.items) }
{
    let _none: Option<Note> = None;
    out.reserve(1)?;
    out.push_reserved(Action::Wake { pause, tag });
    Ok(())
}

/// Appends a note.
///
/// # Errors
///
/// `AllocError` where memory was refused; `out` is as before.
pub fn note_that(out: &mut Vec<Action>, note: Note) -> Result<(), AllocError>
    ensures ok { OnOk result (out.new.items ≡ out.old.items ++ Action.Note note ∷ []) }
    ensures err { OnErr result (out.new.items ≡ out.old.items) }
{
    out.reserve(1)?;
    out.push_reserved(Action::Note(note));
    Ok(())
}
