//! The words and the threads after some events of a run, as the events claim.
//!
//! This is the one fold over events: it says which event can come next, which word stands, and what
//! the words are at the end.
ghost use Rattle.std.specs.Prelude.{◌≡◌, ◌↔◌, ◌<◌, ◌+◌, None, true, length, IfOk};
ghost use Rattle.tko_steps.specs.Core.{slots_at};
ghost use Rattle.tko_runs.specs.States.{CanCome, HasCall, HasPlace, IsEnrolment, IsThreadIdle, entry_at, entry_number, opened_state, state_after, state_with_word, with_answer, with_begin, with_enrolment};
ghost use Rattle.tko_steps.specs.Core.{is_call_step, word_at};

use crate::Event;
use std::alloc::Global;
use std::marker::Model;
use tko_bytes::NoMemory;
use tko_model::{Reply, ServerState, Settings, opened_servers};
use tko_steps::{Place, Slots, Word};

/// What the events say of a thread.
#[derive(Clone, Copy, Debug, PartialEq, Eq)]
pub(crate) enum ThreadEntry {
    NotEnrolled,
    Idle { number: u32 },
    InCall { number: u32, server: usize },
}

/// A soft word with no slot taken.
const NO_SLOTS: Slots = Slots { firm: 0, held: 0 };

/// The words, and the table of the threads. Contracts see a `RunState`.
#[derive(Drop)]
pub(crate) struct RunWords {
    servers: Vec<ServerState>,
    slots: Vec<Slots>,
    enrolled: u32,
    threads: Vec<ThreadEntry>,
}

impl Model for RunWords {
    ghost use Rattle.tko_runs.specs.States.{RunState};

    ghost Value = { RunState };

    ghost view = { λ state. record {
      words = record {
        servers = state.servers.items;
        slots = state.slots.items;
        enrolled = state.enrolled;
      };
      threads = state.threads.items;
    } };
}

impl RunWords {
    pub fn open(alloc: Global, settings: &Settings) -> Result<RunWords, NoMemory>
        ensures { IfOk result (λ state. state ≡ opened_state settings.now) }
    {
        Ok(RunWords {
            servers: opened_servers(alloc, settings)?,
            slots: vec![in alloc; NO_SLOTS; settings.groups()]?,
            enrolled: 0,
            threads: vec![in alloc; ThreadEntry::NotEnrolled; settings.threads as usize]?,
        })
    }

    /// The servers, in the order of their numbers.
    pub fn servers(&self) -> &[ServerState]
        ensures { result.now ≡ self.now.words.servers }
    {
        self.servers.as_slice()
    }

    /// The counts of each group's soft word.
    pub fn soft_words(&self) -> &[Slots]
        ensures { result.now ≡ self.now.words.slots }
    {
        self.slots.as_slice()
    }

    /// The counts of the soft word of a group; of one that isn't there, none.
    pub fn slots(&self, group: usize) -> Slots
        ensures { result ≡ slots_at self.now.words.slots group }
    {
        if group < self.slots.len() {
            self.slots[group]
        } else {
            NO_SLOTS
        }
    }

    /// What the word at a place holds.
    pub fn word_at(&self, place: Place) -> Word
        requires { HasPlace self.now.words place }
        ensures { result ≡ word_at self.now.words place }
    {
        match place {
            Place::Server(server) => Word::Server(self.servers[server]),
            Place::Soft(group) => Word::Soft(self.slots[group]),
            Place::Enrolment => Word::Enrolled(self.enrolled),
        }
    }

    /// The number that a thread drew.
    pub fn number(&self, thread: usize) -> u32
        requires { thread < length self.now.threads }
        ensures { result ≡ entry_number (entry_at self.now thread) }
    {
        match self.threads[thread] {
            ThreadEntry::NotEnrolled => 0,
            ThreadEntry::Idle { number } | ThreadEntry::InCall { number, .. } => number,
        }
    }

    /// Whether the event can come next.
    pub fn admits(&self, event: &Event) -> bool
        ensures { (result ≡ true) ↔ CanCome self.now event.now }
    {
        match *event {
            Event::Begin { thread, server, .. } => {
                self.is_idle(thread) && server < self.servers.len()
            }
            Event::Step {
                thread,
                kind,
                place,
                found,
                left,
                answer,
            } => {
                if kind.is_call_step() {
                    self.has_call(thread) && self.is_place(place)
                } else {
                    self.awaits_enrolment(thread) && self.is_enrolment(place, found, left, answer)
                }
            }
        }
    }

    /// Whether there is such a thread and it is idle.
    fn is_idle(&self, thread: usize) -> bool
        ensures { (result ≡ true) ↔
            (thread < length self.now.threads) × IsThreadIdle (entry_at self.now thread) }
    {
        thread < self.threads.len() && matches!(self.threads[thread], ThreadEntry::Idle { .. })
    }

    /// Whether there is such a thread and it has a call.
    fn has_call(&self, thread: usize) -> bool
        ensures { (result ≡ true) ↔
            (thread < length self.now.threads) × HasCall (entry_at self.now thread) }
    {
        thread < self.threads.len() && matches!(self.threads[thread], ThreadEntry::InCall { .. })
    }

    /// Whether there is such a thread and it isn't enrolled.
    fn awaits_enrolment(&self, thread: usize) -> bool
        ensures { (result ≡ true) ↔
            (thread < length self.now.threads)
            × (entry_at self.now thread ≡ ThreadEntry.NotEnrolled) }
    {
        thread < self.threads.len() && matches!(self.threads[thread], ThreadEntry::NotEnrolled)
    }

    /// Whether there is such a place.
    fn is_place(&self, place: Place) -> bool
        ensures { (result ≡ true) ↔ HasPlace self.now.words place }
    {
        match place {
            Place::Server(server) => server < self.servers.len(),
            Place::Soft(group) => group < self.slots.len(),
            Place::Enrolment => true,
        }
    }

    /// Whether a step with these words is the next enrolment.
    fn is_enrolment(&self, place: Place, found: Word, left: Word, answer: Option<Reply>) -> bool
        ensures { (result ≡ true) ↔ IsEnrolment self.now.words.enrolled place found left answer }
    {
        place == Place::Enrolment
            && found == Word::Enrolled(self.enrolled)
            && self.is_next(left)
            && answer.is_none()
    }

    /// Whether the word counts one more than are enrolled.
    fn is_next(&self, left: Word) -> bool
        ensures { (result ≡ true) ↔ (left ≡ Word.Enrolled (self.now.words.enrolled + 1)) }
    {
        match left {
            Word::Enrolled(count) => self.enrolled.checked_add(1) == Some(count),
            Word::Server(_) | Word::Soft(_) => false,
        }
    }

    /// Takes an event that can come.
    pub fn record(&mut self, event: &Event)
        requires { CanCome self.old event.now }
        ensures { self.new ≡ state_after self.old event.now }
    {
        match *event {
            Event::Begin { thread, server, .. } => self.begin(thread, server),
            Event::Step {
                thread,
                kind,
                place,
                left,
                answer,
                ..
            } => {
                if kind.is_call_step() {
                    self.write(place, left);
                    self.end_call(thread, answer);
                } else {
                    self.enrol(thread, left);
                }
            }
        }
    }

    fn begin(&mut self, thread: usize, server: usize)
        requires { thread < length self.old.threads }
        ensures { self.new ≡ with_begin self.old thread server }
    {
        if let ThreadEntry::Idle { number } = self.threads[thread] {
            self.threads[thread] = ThreadEntry::InCall { number, server };
        }
    }

    fn enrol(&mut self, thread: usize, left: Word)
        requires thread { thread < length self.old.threads }
        requires counts { left ≡ Word.Enrolled (self.old.words.enrolled + 1) }
        ensures { self.new ≡ with_enrolment self.old thread }
    {
        self.threads[thread] = ThreadEntry::Idle {
            number: self.enrolled,
        };
        // The word left is one more; adding 1 here might overflow.
        if let Word::Enrolled(count) = left {
            self.enrolled = count;
        }
    }

    /// Writes the word that a step left.
    fn write(&mut self, place: Place, left: Word)
        requires { HasPlace self.old.words place }
        ensures { self.new ≡ state_with_word self.old place left }
    {
        match place {
            Place::Server(server) => match left {
                Word::Server(state) => self.servers[server] = state,
                Word::Soft(_) | Word::Enrolled(_) => {}
            },
            Place::Soft(group) => match left {
                Word::Soft(slots) => self.slots[group] = slots,
                Word::Server(_) | Word::Enrolled(_) => {}
            },
            Place::Enrolment => {}
        }
    }

    /// Takes a step of a thread with a call, which an answer ends.
    fn end_call(&mut self, thread: usize, answer: Option<Reply>)
        requires { thread < length self.old.threads }
        ensures { self.new ≡ with_answer self.old thread answer }
    {
        if let (ThreadEntry::InCall { number, .. }, Some(_)) = (self.threads[thread], answer) {
            self.threads[thread] = ThreadEntry::Idle { number };
        }
    }
}
