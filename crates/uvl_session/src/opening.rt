//! Opening a session.
ghost use Rattle.std.specs.Prelude.{◌≡◌, Some, None, is_some, length, OnOk, OnErr};
ghost use Rattle.dd_store.specs.Changes.{Keeps};
ghost use Rattle.uvl_decisions.specs.Opening.{most_sessions, open_answer};
ghost use Rattle.uvl_decisions.specs.Session.{fresh};
ghost use Rattle.uvl_model.specs.Products.{Products};
ghost use Rattle.uvl_session.specs.Answers.{IsToldAs, told_opening};
ghost use Rattle.uvl_session.specs.Desk.{IsSound};
ghost use Rattle.uvl_session.specs.Sessions.{find_session, session_at, OthersStay};

use crate::desk::Desk;
use crate::refusal::DeskRefusal;
use std::alloc::Global;
use uvl_analyses::void;
use uvl_decisions::sessions_keep_a_set;
use uvl_model::products_are_sets;

impl Desk {
    /// Opens a session that has no decision yet.
    pub fn open_session(&mut self, alloc: Global, session: &str) -> Result<(), DeskRefusal>
        requires { IsSound self.old }
        ensures sound { IsSound self.new }
        ensures answer { IsToldAs result (told_opening (open_answer (Products self.old.main.model)
            (is_some (find_session self.old.sessions session.now)) (length self.old.sessions))) }
        ensures opened { OnOk result (session_at self.old.main.model self.new.sessions session.now ≡ Some fresh) }
        ensures others { OthersStay self.old.main.model self.old.sessions self.new.sessions session.now }
        ensures refused { OnErr result (self.new.sessions ≡ self.old.sessions) }
        ensures main { self.new.main ≡ self.old.main }
        ensures names { self.new.names ≡ self.old.names }
        ensures keeps { Keeps self.old.kernel self.new.kernel }
    {
        // Laws, and that the table is sound also where nothing is done: they are facts for the proof.
        products_are_sets();
        sessions_keep_a_set();
        self.kernel.order();
        if self.sessions.has(session) {
            return Err(DeskRefusal::SessionThere);
        }
        if self.sessions.is_full() {
            return Err(DeskRefusal::TooManySessions);
        }
        if void(&self.kernel, &self.main) {
            return Err(DeskRefusal::VoidModel);
        }
        self.sessions
            .add(&mut self.kernel, alloc, &self.main.products, session)?;
        Ok(())
    }
}
