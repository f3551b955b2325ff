//! Images in a vector.

ghost use Rattle.replay.specs.Images.{IsRising};

use crate::keeper::{Keeper, place_of};
use crate::refusal::Refusal;
use cpu::Machine;
use std::alloc::Global;

/// Images in a vector that grows as it goes.
#[derive(Drop)]
pub struct VecKeeper {
    images: Vec<(u64, Machine)>,
    ghost rising: { IsRising images.items },
}

impl Keeper for VecKeeper {
    ghost use Rattle.std.specs.Prelude.{true};

    ghost images = { λ k. k.images.items };

    ghost may_refuse = { true };

    fn new(alloc: Global) -> Result<Self, Refusal> {
        Ok(VecKeeper {
            images: Vec::new(alloc),
        })
    }

    fn can_refuse() -> bool {
        true
    }

    fn before(&self, t: u64) -> Option<(u64, &Machine)> {
        for place in (0..self.images.len()).rev() {
            let (step, machine) = &self.images[place];
            if *step <= t {
                return Some((*step, machine));
            }
        }
        None
    }

    fn keep(&mut self, step: u64, machine: &Machine) -> Result<(), Refusal> {
        match self.images.push_mut((step, Machine::start())) {
            Ok(newest) => {
                machine.copy_to(&mut newest.1);
                Ok(())
            }
            Err(_) => Err(Refusal::NoMemory),
        }
    }

    fn remove(&mut self, step: u64) {
        let place = place_of(&self.images, step);
        self.images.remove(place);
    }

    fn count(&self) -> usize {
        self.images.len()
    }

    ghost rising = { λ k. k.rising };
}

/// Takes a keeper apart. No field is left out, so no machine stands beside the vector.
fn all_fields(keeper: &VecKeeper) -> &Vec<(u64, Machine)> {
    let VecKeeper { images } = keeper;
    images
}
