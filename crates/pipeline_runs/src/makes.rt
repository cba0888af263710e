//! Pipelines made of a plan.

ghost use Rattle.std.specs.List.{AllByRecursion};
ghost use Rattle.std.specs.Prelude.{◌≡◌, ◌≤◌, IfOk, [], length, map};
ghost use Rattle.pipeline_time.specs.Bits.{shown};
ghost use Rattle.pipeline_time.specs.Sound.{IsSound};
ghost use Rattle.pipeline_time.specs.States.{after};
ghost use Rattle.pipeline_runs.specs.Turns.{IsPlanOf, IsEquipped};
ghost use Rattle.pipeline_runs.specs.Pipelines.{IsStaged, ShowsHardware};

use crate::behaves::{Behaves, Edge};
use crate::pipeline::Pipeline;
use crate::plan::Plan;
use crate::tree::Occurrence;
use lisa_activation::{Placing, Queues};
use std::alloc::{AllocError, Global};

// The levels of occurrences.
fn placings(alloc: Global, occurrences: &[Occurrence]) -> Result<Vec<Placing>, AllocError>
    requires { AllByRecursion IsStaged occurrences.now }
    ensures own { IfOk result (λ row. map (λ p. p.level) row.items ≡ map (λ o. o.level) occurrences.now) }
    ensures above { IfOk result (λ row. map (λ p. p.above) row.items ≡ map (λ o. o.above) occurrences.now) }
{
    let mut row = Vec::new(alloc);
    for occurrence in occurrences {
        row.push(Placing {
            above: occurrence.above,
            level: occurrence.level,
        })?;
    }
    Ok(row)
}

impl<B: Behaves + Drop> Pipeline<B> {
    /// A pipeline in which nothing stands and all words are 0: what the first state shows, with what lasts in the memory.
    pub fn make(alloc: Global, plan: &Plan, store: B) -> Result<Pipeline<B>, AllocError>
        requires sound { IsSound (B.core store) }
        requires planned { IsPlanOf (B.core store) plan.now }
        requires few { length plan.now.occurrences.items ≤ 4096 }
        ensures store { IfOk result (λ p. p.edge.store ≡ store) }
        ensures equipped { IfOk result (λ p. IsEquipped (B.core store) p.edge.queues plan.now) }
        ensures shows { IfOk result (λ p. ShowsHardware (B.lasting store) p.edge.queues p.words (shown (B.core store) (after (B.core store) (B.lasting store) []))) }
    {
        let placings = placings(alloc, &plan.occurrences)?;
        let queues = Queues::make(alloc, &placings)?;
        Ok(Pipeline {
            edge: Edge {
                store,
                queues,
                slot: None,
            },
            words: [0; 8],
        })
    }
}
