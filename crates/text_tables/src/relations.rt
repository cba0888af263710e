//! Forms that can't share a text, by their parts.

ghost use Rattle.std.specs.Prelude.{◌≡◌, ◌<◌, List, IfOk, IsTrue, length, map};
ghost use Rattle.instruction_texts.specs.declared.shapes.Shape.{Shape as AnyShape};
ghost use Rattle.instruction_texts.specs.declared.shapes.Token.{Token};
ghost use Rattle.instruction_texts.specs.Shapes.{IsText};
ghost use Rattle.text_tables.specs.Openings.{IsRelated};
ghost use Rattle.text_tables.specs.Parts.{part_pieces, text_pieces};
ghost use Rattle.text_tables.specs.Relations.{IsRow, AreRelated};
ghost use Rattle.text_tables.specs.Shared.{shapes_at};

use crate::openings::{Relation, relation_of};
use crate::texts::{Part, pieces};
use instruction_texts::Shape;
use lisa_words::NoMemory;
use std::alloc::Global;

/// How the lists that texts share stand to each other: each to those before it.
#[derive(Drop)]
pub(crate) struct Relations {
    rows: Vec<Vec<Relation>>,
}

// How a list stands to those before it.
fn row(alloc: Global, shared: &[Vec<Shape>], list: usize) -> Result<Vec<Relation>, NoMemory>
    requires { list < length shared.now }
    ensures { IfOk result (λ row. IsRow (map (λ v. v.items) shared.now) list row.items) }
{
    let mut row = Vec::new(alloc);
    'lists: for before in 0..list {
        row.push(relation_of(&shared[list], &shared[before]))?;
    }
    Ok(row)
}

impl Relations {
    /// Those of these lists. Each two are compared once.
    pub(crate) fn make(alloc: Global, shared: &[Vec<Shape>]) -> Result<Relations, NoMemory>
        ensures { IfOk result (AreRelated (map (λ v. v.items) shared.now)) }
    {
        let mut rows = Vec::new(alloc);
        'lists: for list in 0..shared.len() {
            rows.push(row(alloc, shared, list)?)?;
        }
        Ok(Relations { rows })
    }

    // How a list stands to one before it, as far as it is known.
    fn to_earlier(&self, list: usize, before: usize) -> Relation
        ensures { (all : List (List AnyShape)) → AreRelated all self.now → IsRelated (shapes_at all list) (shapes_at all before) result }
    {
        if list >= self.rows.len() {
            return Relation::Open;
        }
        let row = self.rows[list].as_slice();
        if before < row.len() {
            row[before]
        } else {
            Relation::Open
        }
    }

    // How two lists stand to each other.
    fn of_lists(&self, one: usize, other: usize) -> Relation
        ensures { (all : List (List AnyShape)) → AreRelated all self.now → IsRelated (shapes_at all one) (shapes_at all other) result }
    {
        if one == other {
            Relation::Level
        } else if other < one {
            self.to_earlier(one, other)
        } else {
            self.to_earlier(other, one)
        }
    }

    // How two parts stand to each other.
    fn of_parts(&self, shared: &[Vec<Shape>], one: &Part, other: &Part) -> Relation
        requires { AreRelated (map (λ v. v.items) shared.now) self.now }
        ensures { IsRelated (part_pieces shared.now one.now) (part_pieces shared.now other.now) result }
    {
        match (one, other) {
            (Part::Shared(one), Part::Shared(other)) => self.of_lists(*one, *other),
            _ => relation_of(pieces(shared, one), pieces(shared, other)),
        }
    }

    // Whether forms of these parts may have a text in common, by the first part of each, behind which not both have more.
    fn may_share_behind(&self, shared: &[Vec<Shape>], first: &[Part], second: &[Part]) -> bool
        requires { AreRelated (map (λ v. v.items) shared.now) self.now }
        ensures { (ts : List Token) → IsText (text_pieces shared.now first.now) ts → IsText (text_pieces shared.now second.now) ts → IsTrue result }
    {
        if first.len() == 0 || second.len() == 0 {
            return true;
        }
        match self.of_parts(shared, &first[0], &second[0]) {
            Relation::Apart => false,
            Relation::Uneven => first.len() > 1 || second.len() > 1,
            _ => true,
        }
    }

    /// Whether the two forms may have a text in common. They are compared part by part, as long as a text of both must go on behind the
    /// same token. It takes no memory.
    pub(crate) fn may_share_text(
        &self,
        shared: &[Vec<Shape>],
        first: &[Part],
        second: &[Part],
    ) -> bool
        requires { AreRelated (map (λ v. v.items) shared.now) self.now }
        ensures { (ts : List Token) → IsText (text_pieces shared.now first.now) ts → IsText (text_pieces shared.now second.now) ts → IsTrue result }
    {
        let most = first.len().min(second.len()).saturating_sub(1);
        'parts: for i in 0..most {
            match self.of_parts(shared, &first[i], &second[i]) {
                Relation::Level => {}
                Relation::Apart => return false,
                _ => return true,
            }
        }
        self.may_share_behind(shared, &first[most..], &second[most..])
    }
}
