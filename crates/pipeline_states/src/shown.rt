//! What is shown, and what items tell. Each law is the contract of a function that does nothing.

ghost use Rattle.lisa_tree.specs.Descriptions.{DescriptionTree};
ghost use Rattle.pipeline_states.specs.Putting.{PutItemsAreHeld};
ghost use Rattle.pipeline_states.specs.Hardware.{StatesAreShown, AllIsShown, ItemsAreTaken, EdgesAreShown};

/// Where queues, words and what lasts show a machine's hardware, items and cells show its state.
pub fn states_are_shown()
    ensures { (d : DescriptionTree) → StatesAreShown d }
{}

/// Where items and cells are those of the state after some edges, all that lasts, stands and is held in words is what there is after them.
pub fn all_is_shown()
    ensures { (d : DescriptionTree) → AllIsShown d }
{}

/// The items of a state tell which bits are set, and all words.
pub fn items_are_taken()
    ensures { (d : DescriptionTree) → ItemsAreTaken d }
{}

/// Once all items of a state are put into registers and fields, these are the state's.
pub fn put_items_are_held()
    ensures { (d : DescriptionTree) → PutItemsAreHeld d }
{}

/// An edge of a pipeline that shows the state after some edges leads to what shows the state after one more.
pub fn edges_are_shown()
    ensures { (d : DescriptionTree) → EdgesAreShown d }
{}
