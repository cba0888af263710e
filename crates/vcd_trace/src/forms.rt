// The form of a dump: its variables, and its times and changes.
ghost use Rattle.std.specs.Prelude.{◌≡◌, ◌≤◌, ◌<◌, ◌++◌, ◌^◌, [], length, OnOk, Some, None};
ghost use Rattle.vcd_trace.specs.Forms.{variables_in, events_in};
ghost use Rattle.vcd_trace.specs.Parts.{form_of};
ghost use Rattle.vcd_trace.specs.FormAnswers.{AnswersForm};

use crate::faults::VcdFault;
use crate::parts::{Declaration, Event, Part};
use crate::places::{Place, after, may_end};
use crate::reading::read_part;
use crate::words::{all_words, next_word};
use std::alloc::{AllocError, Global};
use std::marker::Model;

/// The variables, and the times and changes in their order. Contracts see the record of both lists.
#[derive(Drop)]
pub struct Content<'a> {
    variables: Vec<Declaration<'a>>,
    events: Vec<Event<'a>>,
}

impl<'a> Model for Content<'a> {
    ghost use Rattle.vcd_trace.specs.Forms.{Form};

    ghost Value = { Form };

    ghost view = { λ c. record { variables = c.variables.items; events = c.events.items } };
}

impl<'a> Content<'a> {
    pub fn variables(&self) -> &[Declaration<'a>]
        ensures { result.now ≡ self.now.variables }
    {
        &self.variables
    }

    pub fn events(&self) -> &[Event<'a>]
        ensures { result.now ≡ self.now.events }
    {
        &self.events
    }

    // Takes a part behind those before.
    fn take(&mut self, part: Part<'a>) -> Result<(), AllocError>
        ensures variables { OnOk result (self.new.variables ≡ self.old.variables ++ variables_in part.entry) }
        ensures events { OnOk result (self.new.events ≡ self.old.events ++ events_in part.entry) }
    {
        match part {
            Part::Declares(variable) => self.variables.push(variable)?,
            Part::Happens(event) => self.events.push(event)?,
            Part::Note
            | Part::Comment
            | Part::Opens
            | Part::Closes
            | Part::Definitions
            | Part::Begins
            | Part::Ends => {}
        }
        Ok(())
    }
}

/// Reads the form of a dump, or answers that it has none.
pub(crate) fn read_form<'a>(alloc: Global, bytes: &'a [u8]) -> Result<Content<'a>, VcdFault>
    requires { length bytes.now < 2 ^ 32 }
    ensures { AnswersForm bytes.now result }
{
    let mut content = Content {
        variables: Vec::new(alloc),
        events: Vec::new(alloc),
    };
    let mut place = Place::Head(0);
    let mut words = all_words(bytes);
    while let Some((word, behind)) = next_word(words) {
        let at = word.at;
        let (part, behind) = match read_part(word, behind) {
            Some(found) => found,
            None => return Err(VcdFault::BadToken { at }),
        };
        match after(place, &part) {
            Some(next) => place = next,
            None => return Err(VcdFault::BadToken { at }),
        }
        content.take(part)?;
        words = behind;
    }
    if may_end(place) {
        Ok(content)
    } else {
        Err(VcdFault::BadToken { at: words.at })
    }
}
