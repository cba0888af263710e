// The ways of plain forms.

ghost use Rattle.std.specs.Prelude.{◌≡◌, ◌++◌, List, [], ◌∷◌, cond, fold, position, Some, IfOk, OnOk};
ghost use Rattle.std.specs.List.{list_any};
ghost use Rattle.lisa_tree.specs.Descriptions.{DescriptionTree};
ghost use Rattle.instruction_forms.specs.Trees.{form_tree};
ghost use Rattle.lowered_words.specs.Ways.{Way, ways_from, with_way};
ghost use Rattle.lowered_words.specs.Links.{same_link, with_link, whole_place, child_place};
ghost use Rattle.lowered_words.specs.Tables.{Holds, Enters};

use crate::links::Link;
use crate::way_at::WayAt;
use indexmap::IndexSet;
use instruction_forms::Form;
use lisa_words::NoMemory;
use std::alloc::Global;

/// The ways of plain forms, each once, in the order in which they are met, and for each a part of a plain form to which it leads.
#[derive(Drop)]
pub(crate) struct Table<'a> {
    pub(crate) links: IndexSet<Link>,
    pub(crate) parts: Vec<&'a Form>,
}

impl<'a> Table<'a> {
    pub(crate) fn new(alloc: Global) -> Table<'a>
        ensures links { result.links.keys ≡ [] }
        ensures parts { result.parts.items ≡ [] }
    {
        Table {
            links: IndexSet::new(alloc),
            parts: Vec::new(alloc),
        }
    }

    // The place of a way, where it has one.
    fn place(&self, link: Link) -> Option<usize>
        ensures { result ≡ position (same_link link) self.now.links.keys }
    {
        self.links.get_index_of(&link)
    }

    /// The way to a whole form of an operation.
    pub(crate) fn whole(&self, operation: usize) -> WayAt
        ensures { result.place ≡ whole_place self.now.links.keys operation }
    {
        WayAt {
            place: self.place(Link::Whole(operation)),
        }
    }

    /// The way to a child of a part, by its place there and its operation.
    pub(crate) fn child(&self, above: WayAt, place: usize, operation: usize) -> WayAt
        ensures { result.place ≡ child_place self.now.links.keys above.place place operation }
    {
        match above.place {
            None => WayAt { place: None },
            Some(above) => WayAt {
                place: self.place(Link::Child(above, place, operation)),
            },
        }
    }

    // The place of a way that leads to a part. A new one is put behind the others.
    #[tactic(auto, using(crate::proofs::Linked::keys_with, crate::proofs::Linked::place_with, crate::proofs::Linked::part_new, crate::proofs::Linked::part_old))]
    fn enter(&mut self, link: Link, part: &'a Form) -> Result<usize, NoMemory>
        ensures links { OnOk result (self.new.links.keys ≡ with_link self.old.links.keys link) }
        ensures parts { OnOk result (self.new.parts.items ≡ cond (list_any (same_link link) self.old.links.keys) self.old.parts.items (self.old.parts.items ++ part.entry ∷ [])) }
        ensures place { IfOk result (λ place. position (same_link link) self.new.links.keys ≡ Some place) }
    {
        let (place, is_new) = self.links.insert_full(link)?;
        if !is_new {
            return Ok(place);
        }
        self.parts.push(part)?;
        Ok(place)
    }

    /// The ways to all parts of a part, that to itself first.
    pub(crate) fn enter_part(&mut self, link: Link, part: &'a Form) -> Result<(), NoMemory>
        ensures { (d : DescriptionTree) (ways : List Way) (w : Way) → Enters d ways w link (form_tree part.now) self.old.links.keys self.old.parts.items → OnOk result (Holds d (fold with_way ways (ways_from w (form_tree part.now))) self.new.links.keys self.new.parts.items) }
    {
        let above = self.enter(link, part)?;
        let children = part.children.as_slice();
        for (place, child) in children.iter().enumerate() {
            let operation = child.operation as usize;
            self.enter_part(Link::Child(above, place, operation), child)?;
        }
        Ok(())
    }
}
