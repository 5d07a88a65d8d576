//! Notes of how suspects change.
ghost use Rattle.std.specs.Prelude.{◌≡◌, ◌≤◌, ◌++◌, OnOk, map};
ghost use Rattle.process_api.specs.{Place.{most_processes}, Sets.{changes, gone}, Inside.Noting.{note_of}};
ghost use Rattle.process_api.specs.declared.action.Action.TheVariants as Action;

use crate::action::{Action, Note, note_that};
use crate::pid::Pid;
use crate::proc_set::ProcSet;
use std::alloc::AllocError;

/// The note that the suspicion of a process begins, or that it ends.
fn change_of(begins: bool, layer: u8, who: Pid) -> Note
    ensures { result ≡ note_of begins layer who }
{
    if begins {
        Note::Suspect { layer, who }
    } else {
        Note::Trust { layer, who }
    }
}

/// Notes of each process that is in one set and not in another, of 1 to `processes`, in order, that the suspicion
/// begins, or that it ends.
#[inline(always)]
fn note_gone(
    out: &mut Vec<Action>,
    begins: bool,
    layer: u8,
    processes: u16,
    from: &ProcSet,
    to: &ProcSet,
) -> Result<(), AllocError>
    requires { processes ≤ most_processes }
    ensures { OnOk result (out.new.items ≡ out.old.items
        ++ map Action.Note (map (note_of begins layer) (gone processes from.now to.now))) }
{
    for who in from.without(to).up_to(processes).iter() {
        note_that(out, change_of(begins, layer, who))?;
    }
    Ok(())
}

/// Notes how the suspects of a layer change, of processes 1 to `processes`: a suspicion of each new one and then the
/// trust in each that left, in rising order.
///
/// # Errors
///
/// `AllocError` where memory was refused; `out` may hold a part of the notes.
#[inline(always)]
pub fn note_changes(
    out: &mut Vec<Action>,
    layer: u8,
    processes: u16,
    old: &ProcSet,
    new: &ProcSet,
) -> Result<(), AllocError>
    requires { processes ≤ most_processes }
    ensures { OnOk result (
        out.new.items ≡ out.old.items ++ map Action.Note (changes layer processes old.now new.now)) }
{
    note_gone(out, true, layer, processes, new, old)?;
    note_gone(out, false, layer, processes, old, new)
}
