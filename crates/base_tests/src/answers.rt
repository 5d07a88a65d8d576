//! The actions of a part of a process, as text: a letter with its receiver, a wake with its pause, and a note as a
//! trace prints it.
use crate::comparisons::{NO_MEMORY, same};
use process_api::{Action, Note, Payload, ProcSet, Tag};
use std::alloc::{AllocError, Global};
use std::process::Abort;

/// The members of a set.
fn members_of(alloc: Global, set: &ProcSet) -> Result<Vec<u16>, AllocError> {
    let mut members = Vec::new(alloc);
    for member in set {
        members.push(member.number())?;
    }
    Ok(members)
}

/// The members of the set are these, in rising order, at this tick or in this case.
pub fn are_members(rt: &impl Abort, alloc: Global, at: u32, set: &ProcSet, wanted: &[u16]) {
    let members = members_of(alloc, set).expect(rt, NO_MEMORY);
    same(rt, &(at, members.as_slice()), &(at, wanted));
}

/// Puts cells at the end of a text, an empty one as `-`.
fn push_cells(text: &mut String, cells: &[Option<u32>]) -> Result<(), AllocError> {
    let mut before = "";
    text.push_str("[")?;
    for cell in cells {
        text.push_str(before)?;
        match cell {
            Some(value) => write!(text, "{value}")?,
            None => text.push_str("-")?,
        }
        before = " ";
    }
    text.push_str("]")
}

/// Puts what a letter says at the end of a text.
fn push_letter(alloc: Global, text: &mut String, payload: &Payload) -> Result<(), AllocError> {
    match payload {
        Payload::Alive => text.push_str("alive"),
        Payload::Heartbeat { number } => write!(text, "heartbeat:{number}"),
        Payload::Suspects(suspects) => {
            let suspects = members_of(alloc, suspects)?;
            write!(text, "suspects:{suspects:?}")
        }
        Payload::Vector { round, cells } => {
            let cells = cells.copy()?.into_vec()?;
            write!(text, "vector:{round}")?;
            push_cells(text, &cells)
        }
        Payload::Last { cells } => {
            let cells = cells.copy()?.into_vec()?;
            text.push_str("last")?;
            push_cells(text, &cells)
        }
        Payload::Estimate {
            round,
            value,
            stamp,
        } => write!(text, "estimate:{round}:{value}:{stamp}"),
        Payload::Proposal { round, value } => write!(text, "proposal:{round}:{value}"),
        Payload::Reply { round, ack } => {
            let name = if *ack { "ack" } else { "nack" };
            write!(text, "{name}:{round}")
        }
        Payload::Decide { round, value } => write!(text, "decide:{round}:{value}"),
    }
}

/// What a wake is for.
fn name_of(tag: Tag) -> &'static str {
    match tag {
        Tag::Beat => "Beat",
        Tag::Check => "Check",
        Tag::Share => "Share",
    }
}

/// Puts one action at the end of a text.
fn push_action(alloc: Global, text: &mut String, action: &Action) -> Result<(), AllocError> {
    match action {
        Action::Send { to, payload } => {
            push_letter(alloc, text, payload)?;
            let to = to.number();
            write!(text, ">{to}")
        }
        Action::Wake { pause, tag } => {
            let tag = name_of(*tag);
            write!(text, "{tag}+{pause}")
        }
        Action::Note(Note::Suspect { layer, who }) => {
            let who = who.number();
            write!(text, "suspect:{layer}:{who}")
        }
        Action::Note(Note::Trust { layer, who }) => {
            let who = who.number();
            write!(text, "trust:{layer}:{who}")
        }
        Action::Note(Note::Round(round)) => write!(text, "round:{round}"),
        Action::Note(Note::Decided(value)) => write!(text, "decided:{value}"),
        Action::Note(Note::NoValue) => text.push_str("novalue"),
    }
}

/// What was done, one action after the other.
fn actions_text(alloc: Global, actions: &[Action]) -> Result<String, AllocError> {
    let mut text = String::new(alloc);
    for action in actions {
        if !text.is_empty() {
            text.push_str(" ")?;
        }
        push_action(alloc, &mut text, action)?;
    }
    Ok(text)
}

/// What was done at this tick, or in this round or case, is this.
pub fn are_done(rt: &impl Abort, alloc: Global, at: u32, actions: &[Action], wanted: &str) {
    let text = actions_text(alloc, actions).expect(rt, NO_MEMORY);
    same(rt, &(at, text.as_str()), &(at, wanted));
}
