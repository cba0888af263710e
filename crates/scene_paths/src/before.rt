//! Where resources stand among the registers, the arrays and the pins.

ghost use Rattle.std.specs.Prelude.{◌≡◌, ◌<◌, ◌^◌, ◌-◌, ◌++◌, IfOk, map};
ghost use Rattle.lisa_tree.specs.Descriptions.{resource_tree};
ghost use Rattle.scene_paths.specs.Places.{before, befores, past};

use lisa_tree::Resource;
use std::alloc::{AllocError, Global};

/// How many registers that are no arrays, how many arrays and how many pins stand before a resource.
#[derive(Clone, Copy, Debug, PartialEq, Eq)]
pub struct Before {
    pub registers: usize,
    pub arrays: usize,
    pub pins: usize,
}

impl Before {
    // With one more resource.
    fn past(self, resource: &Resource) -> Before
        requires registers { self.registers < 2 ^ 64 - 1 }
        requires arrays { self.arrays < 2 ^ 64 - 1 }
        requires pins { self.pins < 2 ^ 64 - 1 }
        ensures { result ≡ past self (resource_tree resource.now) }
    {
        let mut next = self;
        match resource {
            Resource::Register(_, _, _, None) | Resource::Clocked(_, _, _) => next.registers += 1,
            Resource::Register(_, _, _, Some(_)) | Resource::Memory(_, _, _, _) => next.arrays += 1,
            Resource::Pin(_, _) => next.pins += 1,
            Resource::Pipeline(_, _) | Resource::Fields(_, _) => {}
        }
        next
    }
}

/// For each resource how many stand before it.
#[tactic(auto, using(crate::proofs::Placing::one_place, description_tables::proofs::Lists::regroup))]
pub(crate) fn places(alloc: Global, resources: &[Resource]) -> Result<Vec<Before>, AllocError>
    ensures { IfOk result (λ all. all.items ≡ befores (before 0 0 0) (map resource_tree resources.now)) }
{
    let mut all = Vec::new(alloc);
    let mut before = Before {
        registers: 0,
        arrays: 0,
        pins: 0,
    };
    'each: for resource in resources {
        all.push(before)?;
        before = before.past(resource);
    }
    Ok(all)
}
