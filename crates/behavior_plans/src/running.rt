//! Behaviours that are run.

ghost use Rattle.std.specs.Prelude.{◌*◌};
ghost use Rattle.shape_checks.specs.Bounds.{turns};
ghost use Rattle.typed_values.specs.Effects.{turned};
ghost use Rattle.behavior_plans.specs.Acts.{loop_tree, act_tree, act_trees};
ghost use Rattle.behavior_plans.specs.Effects.{loop_turn, act_effect, act_writes, acts_effect, acts_writes};
ghost use Rattle.behavior_plans.specs.Stores.{holdings_of, Leaves};

use crate::acts::{Act, Loop};
use crate::store::Store;
use crate::values::{evaluate, whole};
use crate::writing::{counter_value, first_word, flush, put, set_slot, stall};

/// Runs a statement. A write of a cell that there is no room to note isn't noted.
#[cycle(running)]
#[tactic(auto, using(crate::proofs::Loops::leaves_more))]
pub fn run(act: &Act, store: &mut Store)
    ensures { Leaves store.old store.new (act_effect (act_tree act.now) (holdings_of store.old)) (act_writes (act_tree act.now)) }
{
    match act {
        Act::Empty => {}
        Act::Block(all) => run_all(all.as_slice(), store),
        Act::Local(slot, shape, first) => {
            let value = first_word(store, *shape, first);
            set_slot(store, *slot, value);
        }
        Act::Assign(spot, term) => {
            let given = whole(term, store);
            put(spot, given, store);
        }
        Act::If(test, chosen) => {
            if !evaluate(test, store).is_zero() {
                run(chosen, store);
            }
        }
        Act::IfElse(test, chosen, other) => {
            if evaluate(test, store).is_zero() {
                run(other, store);
            } else {
                run(chosen, store);
            }
        }
        Act::For(head, body) => run_turns(*head, body, store),
        Act::Stall(level) => stall(store, *level),
        Act::Flush(level) => flush(store, *level),
    }
}

/// Runs statements, one after the other. A write of a cell that there is no room to note isn't noted.
#[cycle(running)]
pub fn run_all(all: &[Act], store: &mut Store)
    ensures { Leaves store.old store.new (acts_effect (act_trees all.now) (holdings_of store.old)) (acts_writes (act_trees all.now)) }
{
    for act in all {
        run(act, store);
    }
}

// One turn of a loop.
#[cycle(running)]
#[tactic(auto, using(crate::proofs::Loops::leaves_behind))]
fn run_turn(head: Loop, body: &Act, bits: u64, store: &mut Store)
    ensures { Leaves store.old store.new (loop_turn (loop_tree head) (act_effect (act_tree body.now)) bits (holdings_of store.old)) (act_writes (act_tree body.now)) }
{
    set_slot(store, head.slot, counter_value(head.shape, bits));
    run(body, store);
}

#[cycle(running)]
fn run_turns(head: Loop, body: &Act, store: &mut Store)
    ensures { Leaves store.old store.new (turned (loop_turn (loop_tree head) (act_effect (act_tree body.now))) head.bounds 0 (turns head.bounds) (holdings_of store.old)) (turns head.bounds * act_writes (act_tree body.now)) }
{
    let turns = head.bounds.turns();
    'turns: for turn in 0..turns {
        let bits = head.bounds.first + turn * head.bounds.step;
        run_turn(head, body, bits, store);
    }
}
