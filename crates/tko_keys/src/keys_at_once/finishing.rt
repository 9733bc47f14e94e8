//! The reply of all keys.
ghost use Rattle.std.specs.Prelude.{◌≡◌, ◌++◌, OnErr, OnOk, flat_map};
ghost use Rattle.tko_reply.specs.Answering.{Extends};
ghost use Rattle.tko_keys.specs.KeysState.{KeySlot, values_and_end, reply_in};

use super::KeysAtOnce;
use crate::slot::Slot;
use tko_bytes::NoMemory;
use tko_reply::Outbox;

impl KeysAtOnce {
    /// Puts the reply at the end of an outbox: all values and `END`, or the whole reply to the
    /// first key that got no list of values.
    pub fn finish(self, outbox: &mut Outbox) -> Result<(), NoMemory>
        ensures ok { OnOk result (outbox.new ≡ outbox.old ++ reply_in self.slots) }
        ensures err { OnErr result (Extends outbox.old outbox.new) }
    {
        let mut slots = self.slots;
        if self.ahead < slots.len() {
            let slot = slots.remove(self.ahead);
            return outbox.append_all(slot.outbox);
        }
        append_list(&slots, outbox)
    }
}

/// Puts a whole list of values at the end of an outbox: the responses to some keys, and `END`.
fn append_list(slots: &[Slot], outbox: &mut Outbox) -> Result<(), NoMemory>
    ensures ok { OnOk result (outbox.new ≡ outbox.old ++ values_and_end slots.now) }
    ensures err { OnErr result (Extends outbox.old outbox.new) }
{
    append_values(slots, outbox)?;
    outbox.append_end()
}

/// Puts the responses to some keys at the end of an outbox, one after another.
fn append_values(slots: &[Slot], outbox: &mut Outbox) -> Result<(), NoMemory>
    ensures ok { OnOk result
        (outbox.new ≡ outbox.old ++ flat_map (λ (slot : KeySlot). slot.outbox) slots.now) }
    ensures err { OnErr result (Extends outbox.old outbox.new) }
{
    for slot in slots {
        outbox.append_from(&slot.outbox)?;
    }
    Ok(())
}
