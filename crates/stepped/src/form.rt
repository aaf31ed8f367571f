//! How what is done is shown: by lines for programs, or by the rows of a picture for people.

ghost use Rattle.std.specs.Prelude.{◌≡◌, OnOk};
ghost use Rattle.std.specs.Io.KnownBytes.{Appends};
ghost use Rattle.stepped.specs.Form.{form_after, text_of};
ghost use Rattle.stepped.specs.Lines.Deed.{Begins, AtOnce, Steps, Ends, Looks};

use crate::lines::{Effect, LinePlace, Load, show_answer, show_begin, show_look, show_step};
use crate::meaning::word;
use crate::picture::{draw_answer, draw_begin, draw_event, draw_look};
use hist_core::{Answer, Call};
use std::io;
use std::io::Write;

/// How what is done is shown.
#[derive(Clone, Copy)]
pub enum Form {
    /// By a line for each.
    Lines,
    /// By the rows of a picture, after those of this many events.
    Picture(u64),
}

impl Form {
    /// Shows a call that begins. The error is the writer's.
    pub fn show_begin<W: Write>(
        &self,
        writer: &mut W,
        place: LinePlace,
        call: &Call,
    ) -> io::Result<()>
        ensures { OnOk result (Appends (W.contents writer.old) (W.contents writer.new) (text_of self.now place (Begins call.now))) }
    {
        match self {
            Form::Lines => show_begin(writer, place),
            Form::Picture(_) => draw_begin(writer, place.actor, call),
        }
    }

    /// Shows a call that needs no event, and has ended with an answer. The error is the writer's.
    pub fn show_at_once<W: Write>(
        &self,
        writer: &mut W,
        place: LinePlace,
        call: &Call,
        answer: &Answer,
    ) -> io::Result<()>
        ensures { OnOk result (Appends (W.contents writer.old) (W.contents writer.new) (text_of self.now place (AtOnce call.now answer.now))) }
    {
        match self {
            Form::Lines => show_answer(writer, place, answer),
            Form::Picture(_) => {
                draw_begin(writer, place.actor, call)?;
                draw_answer(writer, place.actor, answer)
            }
        }
    }

    /// Shows an event, with what it did, as the words are then [text]. A picture numbers its events: the form has
    /// counted this one [form]. The error is the writer's.
    pub fn show_event<W: Write>(
        &mut self,
        writer: &mut W,
        place: LinePlace,
        effect: Effect,
        words: &[u64],
    ) -> io::Result<()>
        ensures form { self.new ≡ form_after (Steps words.now effect) self.old }
        ensures text { OnOk result (Appends (W.contents writer.old) (W.contents writer.new) (text_of self.old place (Steps words.now effect))) }
    {
        match self {
            Form::Lines => show_step(writer, place, effect),
            Form::Picture(events) => {
                *events = events.saturating_add(1);
                draw_event(writer, *events, place.actor, effect, words)
            }
        }
    }

    /// Shows the answer of a call that has ended by its last event. The error is the writer's.
    pub fn show_end<W: Write>(
        &self,
        writer: &mut W,
        place: LinePlace,
        answer: &Answer,
    ) -> io::Result<()>
        ensures { OnOk result (Appends (W.contents writer.old) (W.contents writer.new) (text_of self.now place (Ends answer.now))) }
    {
        match self {
            Form::Lines => show_answer(writer, place, answer),
            Form::Picture(_) => draw_answer(writer, place.actor, answer),
        }
    }

    /// Shows the load of a word into the copy of a look, as the words are then. The error is the writer's.
    pub fn show_look<W: Write>(
        &self,
        writer: &mut W,
        place: LinePlace,
        at: usize,
        words: &[u64],
    ) -> io::Result<()>
        ensures { OnOk result (Appends (W.contents writer.old) (W.contents writer.new) (text_of self.now place (Looks words.now at))) }
    {
        let load = Load {
            at,
            value: word(words, at),
        };
        match self {
            Form::Lines => show_look(writer, place, load),
            Form::Picture(_) => draw_look(writer, place.actor, load, words),
        }
    }
}
