//! Forms that a line isn't of.
ghost use Rattle.std.specs.Prelude.{List, IfSome, IfNone, map};
ghost use Rattle.std.specs.List.{All};
ghost use Rattle.asm_source.specs.Plain.{token_tree};
ghost use Rattle.instruction_texts.specs.Shapes.{IsSized};
ghost use Rattle.instruction_texts.specs.Lines.{Plain, Matches};
ghost use Rattle.instruction_texts.specs.Misfits.{NoneBegins};

use crate::matching::front;
use crate::shapes::Shape;
use asm_source::LineToken;

/// How many pieces of a form, counted from its front, tell that the line is none of its texts; none where the line is one of them. It
/// takes no memory.
pub fn misfit(shapes: &[Shape], line: &[LineToken]) -> Option<usize>
    requires sized { All IsSized shapes.now }
    ensures some { IfSome result (λ n. NoneBegins shapes.now n (map token_tree line.now)) }
    ensures none { IfNone result ((gs : List Plain) × Matches shapes.now gs (map token_tree line.now)) }
{
    let mut rest = line;
    'shapes: for i in 0..shapes.len() {
        let Some((_, behind)) = front(&shapes[i], rest) else {
            return Some(i + 1);
        };
        rest = behind;
    }
    if rest.is_empty() {
        None
    } else {
        Some(shapes.len() + 1)
    }
}
