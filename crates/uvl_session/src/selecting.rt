//! Selecting and deselecting a feature.
ghost use Rattle.std.specs.Prelude.{◌≡◌, [], ◌∷◌, Ok, Err, MatchOption, OnOk, OnErr, true, false};
ghost use Rattle.dd_store.specs.Changes.{Keeps};
ghost use Rattle.uvl_decisions.specs.Deciding.{decide_answer};
ghost use Rattle.uvl_model.specs.Products.{Products};
ghost use Rattle.uvl_session.specs.Deciding.{asked_for, told_deciding, with_one_more, HasDecided, IsTablesFor, IsToldUnless};
ghost use Rattle.uvl_session.specs.Desk.{IsSound};
ghost use Rattle.uvl_session.specs.Sessions.{session_at, OthersStay};

use crate::decision::Decision;
use crate::desk::Desk;
use crate::refusal::DeskRefusal;
use std::alloc::Global;

impl Desk {
    /// Decides in a session that a feature is to be in the product. The answer is that of the table's first line whose
    /// case holds; where the decision may be made and the budget is too small for it, that is refused.
    pub fn select(&mut self, alloc: Global, session: &str, feature: &str) -> Result<(), DeskRefusal>
        requires { IsSound self.old }
        ensures sound { IsSound self.new }
        ensures answer { MatchOption (session_at self.old.main.model self.old.sessions session.now)
            (result ≡ Err DeskRefusal.UnknownSession)
            (λ before. IsToldUnless result
            (told_deciding (decide_answer (Products self.old.main.model) before (asked_for feature.now true)))
            (IsTablesFor self.old.kernel ((with_one_more self.old.main.map self.old.main.model before
            (asked_for feature.now true) ∷ []) ∷ []))) }
        ensures decided { OnOk result (HasDecided self.old.main.model self.old.sessions self.new.sessions
            session.now (asked_for feature.now true)) }
        ensures others { OthersStay self.old.main.model self.old.sessions self.new.sessions session.now }
        ensures refused { OnErr result (self.new.sessions ≡ self.old.sessions) }
        ensures main { self.new.main ≡ self.old.main }
        ensures names { self.new.names ≡ self.old.names }
        ensures keeps { Keeps self.old.kernel self.new.kernel }
    {
        self.decide(alloc, session, feature, true)
    }

    /// Decides in a session that a feature is not to be in the product, and answers as `select` does.
    pub fn deselect(
        &mut self,
        alloc: Global,
        session: &str,
        feature: &str,
    ) -> Result<(), DeskRefusal>
        requires { IsSound self.old }
        ensures sound { IsSound self.new }
        ensures answer { MatchOption (session_at self.old.main.model self.old.sessions session.now)
            (result ≡ Err DeskRefusal.UnknownSession)
            (λ before. IsToldUnless result
            (told_deciding (decide_answer (Products self.old.main.model) before (asked_for feature.now false)))
            (IsTablesFor self.old.kernel ((with_one_more self.old.main.map self.old.main.model before
            (asked_for feature.now false) ∷ []) ∷ []))) }
        ensures decided { OnOk result (HasDecided self.old.main.model self.old.sessions self.new.sessions
            session.now (asked_for feature.now false)) }
        ensures others { OthersStay self.old.main.model self.old.sessions self.new.sessions session.now }
        ensures refused { OnErr result (self.new.sessions ≡ self.old.sessions) }
        ensures main { self.new.main ≡ self.old.main }
        ensures names { self.new.names ≡ self.old.names }
        ensures keeps { Keeps self.old.kernel self.new.kernel }
    {
        self.decide(alloc, session, feature, false)
    }

    /// Decides in a session whether a feature is to be in the product.
    fn decide(
        &mut self,
        alloc: Global,
        session: &str,
        feature: &str,
        value: bool,
    ) -> Result<(), DeskRefusal>
        requires { IsSound self.old }
        ensures sound { IsSound self.new }
        ensures answer { MatchOption (session_at self.old.main.model self.old.sessions session.now)
            (result ≡ Err DeskRefusal.UnknownSession)
            (λ before. IsToldUnless result
            (told_deciding (decide_answer (Products self.old.main.model) before (asked_for feature.now value)))
            (IsTablesFor self.old.kernel ((with_one_more self.old.main.map self.old.main.model before
            (asked_for feature.now value) ∷ []) ∷ []))) }
        ensures decided { OnOk result (HasDecided self.old.main.model self.old.sessions self.new.sessions
            session.now (asked_for feature.now value)) }
        ensures others { OthersStay self.old.main.model self.old.sessions self.new.sessions session.now }
        ensures refused { OnErr result (self.new.sessions ≡ self.old.sessions) }
        ensures main { self.new.main ≡ self.old.main }
        ensures names { self.new.names ≡ self.old.names }
        ensures keeps { Keeps self.old.kernel self.new.kernel }
    {
        // The table is sound also where nothing is done.
        self.kernel.order();
        let Some(place) = self.sessions.place_of(session) else {
            return Err(DeskRefusal::UnknownSession);
        };
        let Some(feature) = self.main.model.find(feature) else {
            return Err(DeskRefusal::UnknownFeature);
        };
        let decision = Decision { feature, value };
        self.check_at(alloc, place, decision)?;
        self.decide_at(alloc, place, decision)
    }
}
