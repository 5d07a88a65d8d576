//! Keys of events.
ghost use Rattle.std.specs.Prelude.{◌≡◌, ◌+◌, ◌*◌, ◌<◌};
ghost use Rattle.process_api.specs.Order.{is_before};

use crate::pid::Pid;

/// The key of an event. Keys are compared by tick, then receiver, then sender, then number: the derived order, which
/// is the definition's (`specs/Order.antt`).
#[derive(Clone, Copy, Debug, PartialEq, Eq, PartialOrd, Ord)]
pub struct Key {
    /// When the event is due, in ticks from 0.
    pub tick: u32,
    /// The process that takes the event.
    pub receiver: Pid,
    /// The process that caused it: of a letter its sender, of a wake or a start the receiver itself.
    pub sender: Pid,
    /// The event's number on the link from sender to receiver. Letters to another process are counted from 1; on the
    /// link from a process to itself letters and wakes share one count from 1, and number 0 is the start.
    pub number: u64,
}

/// The tick, the receiver and the sender of a key, as one number.
#[inline(always)]
fn packed(key: &Key) -> u64
    ensures number { result ≡ (key.now.tick * 65536 + key.now.receiver) * 65536 + key.now.sender }
    ensures digits { (key.now.receiver < 65536) × (key.now.sender < 65536) }
{
    let process = u64::from(key.tick) * 65_536 + u64::from(key.receiver.number());
    process * 65_536 + u64::from(key.sender.number())
}

impl Key {
    /// Whether this key comes before the other. Two numbers are compared at most, as events are put in order by this.
    #[inline(always)]
    pub fn is_before(&self, other: &Key) -> bool
        ensures { result ≡ is_before self.now other.now }
    {
        let (mine, others) = (packed(self), packed(other));
        if mine != others {
            return mine < others;
        }
        self.number < other.number
    }
}
