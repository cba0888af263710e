// Sessions.
ghost use Rattle.std.specs.Prelude.{◌≡◌, ℕ, ◌<◌, ◌≤◌, ◌+◌, ◌-◌, [], IfOk, IfErr, OnOk, length};
ghost use Rattle.lisa_io.specs.Contents.{Puts};
ghost use Rattle.lisa_engine.specs.PinValues.{IsFor};
ghost use Rattle.lisa_engine.specs.Machines.{Course, course_of};
ghost use Rattle.lisa_debug.specs.Kept.{IsLive, CameTo, IsPlayed};
ghost use Rattle.lisa_debug.specs.Commands.{command_of, IsShown, IsWithin};
ghost use Rattle.lisa_debug.specs.Answers.{edges_until, is_met, moved, told, goes, refusal_text, answer, answer_of};
ghost use Rattle.lisa_debug.specs.declared.command.Go.TheVariants.{On};
ghost use Rattle.lisa_engine.specs.Traces.{PutsUnless};

use crate::command::{Command, Go, Refusal, read_command};
use crate::journal::{Entry, Journal, advance, changes_since, keep_row, play_until, restore};
use crate::tell::{put_cell, put_item, put_list, put_met_line, put_refusal};
use lisa_engine::{Engine, Schedule, TraceEnd, put_edge_line, write_state};
use lisa_io::{Failed, Sink};
use lisa_words::NoMemory;
use std::alloc::Global;

/// A debugger's session: an engine that is stepped through the edges of a schedule, and back.
///
/// It stands after as many edges as its journal has entries. For each edge the journal keeps what the edge changed, so
/// that going back makes no edge.
#[derive(Drop)]
pub struct Session<E: Engine + Drop> {
    alloc: Global,
    engine: E,
    schedule: Schedule,
    journal: Journal,
}

/// What contracts see of a session.
pub trait Standing {
    /// The course that it is on.
    ghost course: { Self → Course };

    /// How many edges of the course were made.
    ghost position: { Self → ℕ };

    /// It shows the course's state after these edges, and what it keeps of each leads back over it.
    ghost lives: { Self → Type 0 };
}

impl<E: Engine + Drop> Standing for Session<E> {
    ghost course = { λ s. course_of (E.machine s.engine) s.schedule };

    ghost position = { λ s. length s.journal.entries.items };

    ghost lives = { λ s. IsLive (course_of (E.machine s.engine) s.schedule) (E.present s.engine) s.journal };
}

impl<E: Engine + Drop> Session<E> {
    /// A session of an engine after no edge, with a schedule of its pins.
    pub fn make(alloc: Global, engine: E, schedule: Schedule) -> Result<Session<E>, NoMemory>
        requires first { E.present engine ≡ (E.machine engine).defined [] }
        requires schedule { IsFor (E.machine engine).pins schedule }
        ensures course { IfOk result (λ s. ⟦<Session<E> as Standing>⟧.course s ≡ course_of (E.machine engine) schedule) }
        ensures position { IfOk result (λ s. ⟦<Session<E> as Standing>⟧.position s ≡ 0) }
        ensures lives { IfOk result (λ s. ⟦<Session<E> as Standing>⟧.lives s) }
    {
        let row = vec![in alloc; 0; engine.items().len()]?;
        let pins = vec![in alloc; 0; engine.pins().len()]?;
        let journal = Journal {
            entries: Vec::new(alloc),
            row,
            pins,
        };
        Ok(Session {
            alloc,
            engine,
            schedule,
            journal,
        })
    }

    // How many edges it stands after.
    fn position(&self) -> u32
        requires { length self.now.journal.entries.items ≤ 10000 }
        ensures { result ≡ length self.now.journal.entries.items }
    {
        self.journal.entries.len() as u32
    }

    // Plays the lines that hold in the edges made, and answers the place after them.
    fn replay(&mut self) -> usize
        requires { IsLive (course_of (E.machine self.old.engine) self.old.schedule)
            (E.present self.old.engine) self.old.journal }
        ensures came { CameTo (course_of (E.machine self.old.engine) self.old.schedule)
            (course_of (E.machine self.new.engine) self.new.schedule) (E.present self.new.engine) self.new.journal
            (length self.old.journal.entries.items) }
        ensures played { IsPlayed (course_of (E.machine self.old.engine) self.old.schedule)
            (length self.old.journal.entries.items) result self.new.journal.pins.items }
    {
        let position = self.position();
        play_until(&self.schedule, position, &mut self.journal.pins)
    }

    // Makes the next edge, where the lines before a place are played, and answers the next place.
    fn make_edge(&mut self, next: usize) -> Result<usize, NoMemory>
        requires live { IsLive (course_of (E.machine self.old.engine) self.old.schedule)
            (E.present self.old.engine) self.old.journal }
        requires limit { length self.old.journal.entries.items < 10000 }
        requires played { IsPlayed (course_of (E.machine self.old.engine) self.old.schedule)
            (length self.old.journal.entries.items) next self.old.journal.pins.items }
        ensures came { OnOk result (CameTo (course_of (E.machine self.old.engine) self.old.schedule)
            (course_of (E.machine self.new.engine) self.new.schedule) (E.present self.new.engine) self.new.journal
            (length self.old.journal.entries.items + 1)) }
        ensures played { IfOk result (λ next. IsPlayed (course_of (E.machine self.old.engine) self.old.schedule)
            (length self.old.journal.entries.items + 1) next self.new.journal.pins.items) }
    {
        let position = self.position();
        let journal = &mut self.journal;
        let next = advance(
            &mut self.engine,
            &self.schedule,
            position,
            next,
            &mut journal.row,
            &mut journal.pins,
        );
        let changes = changes_since(self.alloc, &self.engine, &self.journal.row)?;
        let touches = Vec::from_slice(self.alloc, self.engine.touched())?;
        self.journal.entries.push(Entry { changes, touches })?;
        Ok(next)
    }

    // Takes the last edge back.
    fn take_back(&mut self)
        requires live { IsLive (course_of (E.machine self.old.engine) self.old.schedule)
            (E.present self.old.engine) self.old.journal }
        requires some { 0 < length self.old.journal.entries.items }
        ensures { CameTo (course_of (E.machine self.old.engine) self.old.schedule)
            (course_of (E.machine self.new.engine) self.new.schedule) (E.present self.new.engine) self.new.journal
            (length self.old.journal.entries.items - 1) }
    {
        let Some(entry) = self.journal.entries.pop() else {
            return;
        };
        keep_row(&self.engine, &mut self.journal.row);
        restore(&mut self.journal.row, &entry.changes);
        self.engine.retreat(&self.journal.row, &entry.touches);
    }

    fn step(&mut self, count: u32) -> Result<(), NoMemory>
        requires live { IsLive (course_of (E.machine self.old.engine) self.old.schedule)
            (E.present self.old.engine) self.old.journal }
        requires limit { length self.old.journal.entries.items + count ≤ 10000 }
        ensures { OnOk result (CameTo (course_of (E.machine self.old.engine) self.old.schedule)
            (course_of (E.machine self.new.engine) self.new.schedule) (E.present self.new.engine) self.new.journal
            (length self.old.journal.entries.items + count)) }
    {
        // the lines of the edges made aren't played again where none is made
        if count == 0 {
            return Ok(());
        }
        let mut next = self.replay();
        for made in 0..count {
            next = self.make_edge(next)?;
        }
        Ok(())
    }

    // Makes edges while the item isn't the value, at most so many.
    fn step_until(&mut self, item: usize, value: u64, count: u32) -> Result<(), NoMemory>
        requires live { IsLive (course_of (E.machine self.old.engine) self.old.schedule)
            (E.present self.old.engine) self.old.journal }
        requires limit { length self.old.journal.entries.items + count ≤ 10000 }
        requires item { item < length (E.machine self.old.engine).items }
        ensures { OnOk result (CameTo (course_of (E.machine self.old.engine) self.old.schedule)
            (course_of (E.machine self.new.engine) self.new.schedule) (E.present self.new.engine) self.new.journal
            (edges_until (is_met (course_of (E.machine self.old.engine) self.old.schedule) item value) (length self.old.journal.entries.items) count)) }
    {
        if count == 0 {
            return Ok(());
        }
        let mut next = self.replay();
        for made in 0..count {
            if self.engine.value(item) == value {
                return Ok(());
            }
            next = self.make_edge(next)?;
        }
        Ok(())
    }

    fn back(&mut self, count: u32)
        requires live { IsLive (course_of (E.machine self.old.engine) self.old.schedule)
            (E.present self.old.engine) self.old.journal }
        requires limit { count ≤ length self.old.journal.entries.items }
        ensures { CameTo (course_of (E.machine self.old.engine) self.old.schedule)
            (course_of (E.machine self.new.engine) self.new.schedule) (E.present self.new.engine) self.new.journal
            (length self.old.journal.entries.items - count) }
    {
        for taken in 0..count {
            self.take_back();
        }
    }

    // Makes and takes back the edges that a command asks for.
    fn go(&mut self, command: Command) -> Result<(), NoMemory>
        requires live { IsLive (course_of (E.machine self.old.engine) self.old.schedule)
            (E.present self.old.engine) self.old.journal }
        requires within { IsWithin (length self.old.journal.entries.items) command }
        requires shown { IsShown (E.machine self.old.engine).items (E.machine self.old.engine).arrays command }
        ensures { OnOk result (CameTo (course_of (E.machine self.old.engine) self.old.schedule)
            (course_of (E.machine self.new.engine) self.new.schedule) (E.present self.new.engine) self.new.journal
            (moved (course_of (E.machine self.old.engine) self.old.schedule) (length self.old.journal.entries.items) command)) }
    {
        match command {
            Command::Step(count) => self.step(count),
            Command::Until(item, value, count) => self.step_until(item, value, count),
            Command::Back(count) => {
                self.back(count);
                Ok(())
            }
            Command::Show => Ok(()),
            Command::ShowItem(_) => Ok(()),
            Command::ShowCell(_, _) => Ok(()),
            Command::Where => Ok(()),
            Command::ListItems => Ok(()),
            Command::Quit => Ok(()),
        }
    }

    // Appends what is told of a command, once its edges are made.
    fn tell<O: Sink>(&self, command: Command, out: &mut O) -> Result<(), Failed>
        requires live { IsLive (course_of (E.machine self.now.engine) self.now.schedule)
            (E.present self.now.engine) self.now.journal }
        requires shown { IsShown (E.machine self.now.engine).items (E.machine self.now.engine).arrays command }
        ensures { Puts (O.written out.old) (O.written out.new) (O.faults out.old) (O.faults out.new) result
            (told (course_of (E.machine self.now.engine) self.now.schedule)
            (length self.now.journal.entries.items) command) }
    {
        let position = self.position();
        match command {
            Command::Step(_) => put_edge_line(out, position),
            Command::Until(item, value, _) => {
                put_met_line(out, position, self.engine.value(item) == value)
            }
            Command::Show => write_state(&self.engine, position, out),
            Command::ShowItem(item) => put_item(out, &self.engine, item),
            Command::ShowCell(array, index) => put_cell(out, &self.engine, array, index),
            Command::Where => put_edge_line(out, position),
            Command::ListItems => put_list(out, self.engine.items()),
            Command::Back(_) => put_edge_line(out, position),
            Command::Quit => Ok(()), // nothing is told
        }
    }

    // What a line asks for.
    fn read(&self, line: &[u8]) -> Result<Result<Command, Refusal>, TraceEnd>
        requires { length self.now.journal.entries.items ≤ 10000 }
        ensures read { IfOk result (λ r. r ≡ command_of (E.machine self.now.engine).items (E.machine self.now.engine).arrays (length self.now.journal.entries.items) line.now) }
        ensures within { IfOk result (λ r. IfOk r (IsWithin (length self.now.journal.entries.items))) }
        ensures shown { IfOk result (λ r. IfOk r (IsShown (E.machine self.now.engine).items (E.machine self.now.engine).arrays)) }
        ensures memory { IfErr result (λ e. e ≡ TraceEnd.NoMemory) }
    {
        let position = self.position();
        let items = self.engine.items();
        match read_command(self.alloc, items, self.engine.arrays(), position, line) {
            Ok(read) => Ok(read),
            Err(_) => Err(TraceEnd::NoMemory),
        }
    }

    /// Answers a line, which is without its line feed. After an `Err` a front of the answer was appended, and the session is
    /// spent.
    pub fn line<O: Sink>(&mut self, line: &[u8], out: &mut O) -> Result<Go, TraceEnd>
        requires { ⟦<Session<E> as Standing>⟧.lives self.old }
        ensures puts { let session = ⟦<Session<E> as Standing>⟧ in
            PutsUnless (O.written out.old) (O.written out.new) (O.faults out.old) (O.faults out.new) result
            (answer (session.course self.old) (session.position self.old) line.now).text }
        ensures position { let session = ⟦<Session<E> as Standing>⟧ in
            OnOk result (session.position self.new ≡ (answer (session.course self.old) (session.position self.old) line.now).position) }
        ensures goes { let session = ⟦<Session<E> as Standing>⟧ in
            IfOk result (λ go. go ≡ (answer (session.course self.old) (session.position self.old) line.now).go) }
        ensures course { OnOk result (⟦<Session<E> as Standing>⟧.course self.new ≡ ⟦<Session<E> as Standing>⟧.course self.old) }
        ensures lives { OnOk result (⟦<Session<E> as Standing>⟧.lives self.new) }
    {
        let read = self.read(line)?;
        self.respond(read, out)
    }

    // Answers what a line asks for, or its refusal.
    fn respond<O: Sink>(
        &mut self,
        read: Result<Command, Refusal>,
        out: &mut O,
    ) -> Result<Go, TraceEnd>
        requires live { IsLive (course_of (E.machine self.old.engine) self.old.schedule)
            (E.present self.old.engine) self.old.journal }
        requires within { IfOk read (IsWithin (length self.old.journal.entries.items)) }
        requires shown { IfOk read (IsShown (E.machine self.old.engine).items (E.machine self.old.engine).arrays) }
        ensures puts { PutsUnless (O.written out.old) (O.written out.new) (O.faults out.old) (O.faults out.new) result
            (answer_of (course_of (E.machine self.old.engine) self.old.schedule)
            (length self.old.journal.entries.items) read).text }
        ensures came { OnOk result (CameTo (course_of (E.machine self.old.engine) self.old.schedule)
            (course_of (E.machine self.new.engine) self.new.schedule) (E.present self.new.engine) self.new.journal
            (answer_of (course_of (E.machine self.old.engine) self.old.schedule) (length self.old.journal.entries.items) read).position) }
        ensures goes { IfOk result (λ go. go ≡ (answer_of (course_of (E.machine self.old.engine) self.old.schedule)
            (length self.old.journal.entries.items) read).go) }
    {
        match read {
            Ok(command) => self.carry_out(command, out),
            Err(refusal) => refuse(refusal, out),
        }
    }

    fn carry_out<O: Sink>(&mut self, command: Command, out: &mut O) -> Result<Go, TraceEnd>
        requires live { IsLive (course_of (E.machine self.old.engine) self.old.schedule)
            (E.present self.old.engine) self.old.journal }
        requires within { IsWithin (length self.old.journal.entries.items) command }
        requires shown { IsShown (E.machine self.old.engine).items (E.machine self.old.engine).arrays command }
        ensures puts { PutsUnless (O.written out.old) (O.written out.new) (O.faults out.old) (O.faults out.new) result
            (told (course_of (E.machine self.old.engine) self.old.schedule)
            (moved (course_of (E.machine self.old.engine) self.old.schedule)
            (length self.old.journal.entries.items) command) command) }
        ensures came { OnOk result (CameTo (course_of (E.machine self.old.engine) self.old.schedule)
            (course_of (E.machine self.new.engine) self.new.schedule) (E.present self.new.engine) self.new.journal
            (moved (course_of (E.machine self.old.engine) self.old.schedule) (length self.old.journal.entries.items) command)) }
        ensures goes { IfOk result (λ go. go ≡ goes command) }
    {
        match self.go(command) {
            Ok(()) => self.answer_now(command, out),
            Err(_) => Err(TraceEnd::NoMemory),
        }
    }

    // Tells of a command, once its edges are made.
    fn answer_now<O: Sink>(&self, command: Command, out: &mut O) -> Result<Go, TraceEnd>
        requires live { IsLive (course_of (E.machine self.now.engine) self.now.schedule)
            (E.present self.now.engine) self.now.journal }
        requires shown { IsShown (E.machine self.now.engine).items (E.machine self.now.engine).arrays command }
        ensures puts { PutsUnless (O.written out.old) (O.written out.new) (O.faults out.old) (O.faults out.new) result
            (told (course_of (E.machine self.now.engine) self.now.schedule)
            (length self.now.journal.entries.items) command) }
        ensures goes { IfOk result (λ go. go ≡ goes command) }
    {
        match self.tell(command, out) {
            Ok(()) => Ok(goes_on(command)),
            Err(Failed) => Err(TraceEnd::WriteFault),
        }
    }
}

fn goes_on(command: Command) -> Go
    ensures { result ≡ goes command }
{
    match command {
        Command::Quit => Go::Quit,
        _ => Go::On,
    }
}

fn refuse<O: Sink>(refusal: Refusal, out: &mut O) -> Result<Go, TraceEnd>
    ensures puts { PutsUnless (O.written out.old) (O.written out.new) (O.faults out.old) (O.faults out.new) result (refusal_text refusal) }
    ensures goes { IfOk result (λ go. go ≡ On) }
{
    match put_refusal(out, refusal) {
        Ok(()) => Ok(Go::On),
        Err(Failed) => Err(TraceEnd::WriteFault),
    }
}
