//! The course of a script: what its lines so far say of the next.

ghost use Rattle.std.specs.Prelude.{◌≡◌};
ghost use Rattle.std.specs.Result.{result_map_both};
ghost use Rattle.q3_script.specs.Script.{no_course, timed, node_after, first_after, client_course_after, course_after};
ghost use Rattle.q3_script.specs.Script as spec;

use crate::cause::ScriptKind;
use crate::event::Event;
use q3_words::LineCause;
use std::marker::Model;

/// What the lines so far say of the next: the least time that it may have, whether `end` stood among them, and the client that
/// they are of.
#[derive(Drop)]
pub(crate) struct Course {
    time: u32,
    ended: bool,
    client: Option<u8>,
}

impl Model for Course {
    ghost use Rattle.q3_script.specs.Script.{Course as CourseValue};

    ghost Value = { CourseValue };

    ghost view = { λ c. record { time = c.time; ended = c.ended; client = c.client } };
}

/// Whether a line after `client` is of that client.
fn is_of(c: u8, event: &Event) -> bool
    ensures { result ≡ spec.is_of c event.now }
{
    match event {
        Event::Client { .. } => false,
        Event::TypeText { c: d, .. }
        | Event::Move { c: d, .. }
        | Event::Send { c: d }
        | Event::RecordTo { c: d, .. }
        | Event::Stop { c: d }
        | Event::Show { c: d } => *d == c,
        _ => true,
    }
}

impl Course {
    /// Before the first line.
    pub(crate) fn new() -> Course
        ensures { result ≡ no_course }
    {
        Course {
            time: 0,
            ended: false,
            client: None,
        }
    }

    /// Goes on to a time.
    fn go_to(&mut self, ms: u32) -> Result<(), LineCause>
        ensures { result_map_both (λ _. self.new) (λ cause. cause) result ≡ timed self.old ms }
    {
        if ms < self.time {
            return Err(LineCause::Order);
        }
        self.time = ms;
        Ok(())
    }

    /// Goes on after a line of a node.
    fn go_on_node(&mut self, event: &Event) -> Result<(), LineCause>
        ensures { result_map_both (λ _. self.new) (λ cause. cause) result ≡ node_after self.old event.now }
    {
        match event {
            Event::At { ms } => self.go_to(*ms),
            Event::End { ms } => {
                self.ended = true;
                self.go_to(*ms)
            }
            _ => Ok(()),
        }
    }

    /// Goes on after the first line of a client's script.
    fn go_on_first(&mut self, event: &Event) -> Result<(), LineCause>
        ensures { result_map_both (λ _. self.new) (λ cause. cause) result ≡ first_after self.old event.now }
    {
        match event {
            Event::Client { c, .. } => {
                self.client = Some(*c);
                Ok(())
            }
            _ => Err(LineCause::Order),
        }
    }

    /// Goes on after a line of a client's script.
    fn go_on_client(&mut self, event: &Event) -> Result<(), LineCause>
        ensures { result_map_both (λ _. self.new) (λ cause. cause) result
            ≡ client_course_after self.old self.old.client event.now }
    {
        match self.client {
            None => self.go_on_first(event),
            Some(c) if is_of(c, event) => self.go_on_node(event),
            Some(_) => Err(LineCause::Order),
        }
    }

    /// Goes on after a line of a script of a kind, if it may stand there.
    pub(crate) fn go_on(&mut self, kind: ScriptKind, event: &Event) -> Result<(), LineCause>
        ensures { result_map_both (λ _. self.new) (λ cause. cause) result ≡ course_after kind self.old event.now }
    {
        match kind {
            ScriptKind::Replay => Ok(()),
            _ if self.ended => Err(LineCause::Order),
            ScriptKind::Serve => self.go_on_node(event),
            ScriptKind::Join => self.go_on_client(event),
        }
    }

    /// Whether a script of a kind may end here.
    pub(crate) fn is_complete(&self, kind: ScriptKind) -> bool
        ensures { result ≡ spec.is_complete kind self.now }
    {
        match kind {
            ScriptKind::Replay => true,
            ScriptKind::Serve | ScriptKind::Join => self.ended,
        }
    }
}
