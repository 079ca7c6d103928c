//! The desk: a model, and the sessions that configure it.
ghost use Rattle.std.specs.Prelude.{◌≡◌, Ok, Err, Some, None, MatchOption, OnErr, option_map};

use crate::decision::Decision;
use crate::refusal::DeskRefusal;
use crate::sessions::Sessions;
use dd_apply::Kernel;
use uvl_compile::{Compiled, Names};

/// A table of diagrams with a model and the sessions that are open on it.
#[derive(Drop)]
pub struct Desk {
    pub kernel: Kernel,
    pub names: Names,
    pub main: Compiled,
    pub sessions: Sessions,
}

impl Desk {
    ghost use Rattle.dd_store.specs.Changes.{Keeps};
    ghost use Rattle.uvl_decisions.specs.Session.{close};
    ghost use Rattle.uvl_session.specs.Desk.{IsSound};
    ghost use Rattle.uvl_session.specs.Sessions.{find_session, session_at, OthersStay};

    /// The closed decisions of a session, oldest first; none where there is no such session.
    pub fn closed(&self, session: &str) -> Option<&[Decision]>
        ensures { option_map (λ decisions. decisions.now) result
            ≡ option_map (λ it. it.stages.closed) (find_session self.now.sessions session.now) }
    {
        let found = self.sessions.with_name(session)?;
        Some(found.stages.closed())
    }

    /// The standing decisions of a session, oldest first; none where there is no such session.
    pub fn standing(&self, session: &str) -> Option<&[Decision]>
        ensures { option_map (λ decisions. decisions.now) result
            ≡ option_map (λ it. it.stages.standing) (find_session self.now.sessions session.now) }
    {
        let found = self.sessions.with_name(session)?;
        Some(found.stages.standing())
    }

    /// Closes a stage of a session: all its decisions are closed then. It takes no memory.
    pub fn close_stage(&mut self, session: &str) -> Result<(), DeskRefusal>
        requires { IsSound self.old }
        ensures sound { IsSound self.new }
        ensures answer { MatchOption (session_at self.old.main.model self.old.sessions session.now)
            (result ≡ Err DeskRefusal.UnknownSession)
            (λ before. (result ≡ Ok tt)
            × (session_at self.old.main.model self.new.sessions session.now ≡ Some (close before))) }
        ensures others { OthersStay self.old.main.model self.old.sessions self.new.sessions session.now }
        ensures refused { OnErr result (self.new.sessions ≡ self.old.sessions) }
        ensures main { self.new.main ≡ self.old.main }
        ensures names { self.new.names ≡ self.old.names }
        ensures kernel { self.new.kernel ≡ self.old.kernel }
    {
        match self.sessions.place_of(session) {
            Some(place) => {
                self.sessions.close_at(place);
                Ok(())
            }
            None => Err(DeskRefusal::UnknownSession),
        }
    }

    /// Ends a session, and gives its handle back. It takes no memory.
    pub fn end_session(&mut self, session: &str) -> Result<(), DeskRefusal>
        requires { IsSound self.old }
        ensures sound { IsSound self.new }
        ensures answer { MatchOption (session_at self.old.main.model self.old.sessions session.now)
            (result ≡ Err DeskRefusal.UnknownSession) (λ _. result ≡ Ok tt) }
        ensures ended { session_at self.old.main.model self.new.sessions session.now ≡ None }
        ensures others { OthersStay self.old.main.model self.old.sessions self.new.sessions session.now }
        ensures main { self.new.main ≡ self.old.main }
        ensures names { self.new.names ≡ self.old.names }
        ensures keeps { Keeps self.old.kernel self.new.kernel }
    {
        // The table is sound also where nothing is done.
        self.kernel.order();
        match self.sessions.place_of(session) {
            Some(place) => {
                let agreeing = self.sessions.remove_at(place);
                self.kernel.release(agreeing);
                Ok(())
            }
            None => Err(DeskRefusal::UnknownSession),
        }
    }
}
