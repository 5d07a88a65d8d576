//! Letters on their way.
ghost use Rattle.std.specs.Prelude.{◌≡◌, IfErr, IfOk, OnErr};
ghost use Rattle.trace_laws.specs.Taken.{LiesAside, event_of};

use crate::event::Event;
use process_api::{Key, Letter, Payload, StepInput};
use std::alloc::{AllocError, Global};
use std::marker::Model;

/// A letter on its way, in 32 bytes: it lies as the event that it becomes. Contracts see the letter.
#[derive(Drop)]
pub struct Parcel {
    event: Event,
}

impl Model for Parcel {
    ghost use Rattle.std.specs.Prelude.{◌≡◌};
    ghost use Rattle.process_api.specs.contracts.message.Letter as letter;
    ghost use Rattle.{process_api.specs.declared.message.Letter.{Letter}, trace_laws.specs.Taken.{event_of, letter_of}};

    ghost Value = { Letter };

    ghost coded = { letter.the_row.coded };

    ghost view = { λ p. letter_of p.event };

    ghost invariant = { λ p. p.event ≡ event_of (letter_of p.event) };
}

impl Parcel {
    /// A letter, put together. The payload is read in its place, and moved out of it where it is large. The payload
    /// that is left there means nothing.
    ///
    /// # Errors
    ///
    /// `AllocError` where memory was refused, for a letter of which a part lies aside (see [`Event::letter`]). It is in
    /// its place then.
    #[inline(always)]
    pub fn new(alloc: Global, key: Key, payload: &mut Payload) -> Result<Parcel, AllocError>
        ensures letter { IfOk result (λ p. p ≡ record { key = key; payload = payload.old }) }
        ensures large { IfErr result (λ _. LiesAside payload.old) }
        ensures back { OnErr result (payload.new ≡ payload.old) }
    {
        let event = Event::letter(alloc, key, payload)?;
        Ok(Parcel { event })
    }

    /// The same of a whole letter, which comes back where memory was refused.
    pub fn pack(alloc: Global, mut letter: Letter) -> Result<Parcel, Letter>
        ensures ok { IfOk result (λ p. p ≡ letter) }
        ensures large { IfErr result (λ x. LiesAside x.payload) }
        ensures back { IfErr result (λ x. x ≡ letter) }
    {
        match Parcel::new(alloc, letter.key, &mut letter.payload) {
            Ok(parcel) => Ok(parcel),
            Err(_) => Err(letter),
        }
    }

    /// When, by whom and from whom it is taken, and its number on its link.
    #[inline(always)]
    pub fn key(&self) -> Key
        ensures { result ≡ self.now.key }
    {
        self.event.key()
    }

    /// The event that the letter becomes.
    #[inline(always)]
    pub fn into_event(self) -> Event
        ensures { result ≡ event_of self }
    {
        let Parcel { event } = self;
        event
    }

    /// The letter.
    pub fn into_letter(self) -> Letter
        ensures { result ≡ self }
    {
        let Parcel { mut event } = self;
        match event.take_parts() {
            (key, StepInput::Letter { payload, .. }) => Letter { key, payload },
            (_, _) => unreachable!(),
        }
    }
}
