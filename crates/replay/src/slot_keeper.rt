//! Images in slots.

ghost use Rattle.std.specs.Prelude.{◌≡◌, ◌≢◌, ℕ, ◌<◌, map, slice_index_or, All, AllPairs, Contains, IfOk, OnErr};
ghost use Rattle.std.specs.Prelude.{length};
ghost use Rattle.std.specs.List.{remove};
ghost use Rattle.replay.specs.Memory.{most_images};
ghost use Rattle.replay.specs.Slots.{IsSlotted, images_in};

use crate::keeper::Keeper;
use crate::refusal::Refusal;
use arrayvec::ArrayVec;
use cpu::Machine;
use std::alloc::Global;

/// How many slots there are.
pub const SLOTS: usize = 79;

/// Images in slots, all of which are made at once.
#[derive(Drop)]
pub struct SlotKeeper {
    slots: Vec<Machine>,
    entries: ArrayVec<(u64, usize), SLOTS>,
    free: ArrayVec<usize, SLOTS>,
    ghost slotted: { IsSlotted slots.items entries.items free.items },
}

/// All slots, each with a machine at its start.
fn make_slots(alloc: Global) -> Result<Vec<Machine>, Refusal>
    ensures made { IfOk result (λ slots. length slots.items ≡ most_images) }
    ensures refused { OnErr result (result ≡ Err Refusal.NoMemory) }
{
    let mut slots = match Vec::with_capacity(alloc, SLOTS) {
        Ok(slots) => slots,
        Err(_) => return Err(Refusal::NoMemory),
    };
    for _ in 0..SLOTS {
        match slots.push(Machine::start()) {
            Ok(()) => {}
            Err(_) => return Err(Refusal::NoMemory),
        }
    }
    Ok(slots)
}

/// The numbers of all slots, each once.
fn all_free() -> ArrayVec<usize, SLOTS>
    ensures count { length result.items ≡ most_images }
    ensures within { All (λ s. s < most_images) result.items }
    ensures apart { AllPairs (λ s t. s ≢ t) result.items }
{
    let mut free = ArrayVec::new();
    for slot in 0..SLOTS {
        free.push(slot);
    }
    free
}

/// Takes the mark of a step out, and answers its slot. It is sought from the newest back, and those passed move up.
fn take_entry(entries: &mut ArrayVec<(u64, usize), SLOTS>, step: u64) -> usize
    requires { Contains (map (λ m. m.0) entries.old.items) step }
    ensures { (k : ℕ) × (k < length entries.old.items)
        × ((step, result) ≡ slice_index_or entries.old.items k (step, result))
        × (entries.new.items ≡ remove entries.old.items k) }
{
    let Some((mut at, mut slot)) = entries.pop() else {
        unreachable!()
    };
    let mut place = entries.len();
    while at != step {
        place -= 1;
        let earlier = entries.as_slice()[place];
        entries.as_mut_slice()[place] = (at, slot);
        at = earlier.0;
        slot = earlier.1;
    }
    slot
}

impl Keeper for SlotKeeper {
    ghost use Rattle.std.specs.Prelude.{false};
    ghost use Rattle.replay.specs.Slots.{images_in};

    ghost images = { λ k. images_in k.slots.items k.entries.items };

    ghost may_refuse = { false };

    fn new(alloc: Global) -> Result<Self, Refusal> {
        let slots = make_slots(alloc)?;
        Ok(SlotKeeper {
            slots,
            entries: ArrayVec::new(),
            free: all_free(),
        })
    }

    fn can_refuse() -> bool {
        false
    }

    fn before(&self, t: u64) -> Option<(u64, &Machine)> {
        for place in (0..self.entries.len()).rev() {
            let (step, slot) = self.entries.as_slice()[place];
            if step <= t {
                return Some((step, &self.slots[slot]));
            }
        }
        None
    }

    fn keep(&mut self, step: u64, machine: &Machine) -> Result<(), Refusal> {
        let Some(slot) = self.free.pop() else {
            unreachable!()
        };
        machine.copy_to(&mut self.slots[slot]);
        self.entries.push((step, slot));
        Ok(())
    }

    fn remove(&mut self, step: u64) {
        let slot = take_entry(&mut self.entries, step);
        self.free.push(slot);
    }

    fn count(&self) -> usize {
        self.entries.len()
    }

    ghost rising = { λ k. k.slotted.rising };
}

/// Takes a keeper apart. No field is left out, so no machine stands beside its slots.
fn all_fields(
    keeper: &SlotKeeper,
) -> (
    &Vec<Machine>,
    &ArrayVec<(u64, usize), 79>,
    &ArrayVec<usize, 79>,
) {
    let SlotKeeper {
        slots,
        entries,
        free,
    } = keeper;
    (slots, entries, free)
}
