//! Decisions in a session.
ghost use Rattle.std.specs.Prelude.{◌≡◌, ◌<◌, ◌==◌, [], ◌∷◌, ◌++◌, Ok, Err, ℕ, length, get_or, set, IfOk, IfErr, OnOk, OnErr, MatchOption};
ghost use Rattle.std.specs.Str.{chars};
ghost use Rattle.std.specs.List.{list_any};
ghost use Rattle.dd_store.specs.Changes.{Keeps};
ghost use Rattle.dd_store.specs.Table.{IsVariable};
ghost use Rattle.uvl_analyses.specs.Compiled.{IsCompiled};
ghost use Rattle.uvl_decisions.specs.Deciding.{decide_answer};
ghost use Rattle.uvl_decisions.specs.Decisions.{is_offered};
ghost use Rattle.uvl_model.specs.Products.{Products};
ghost use Rattle.uvl_session.specs.declared.sessions.OpenSession.{OpenSession as Entry};
ghost use Rattle.uvl_session.specs.Answers.{IsToldAs};
ghost use Rattle.uvl_session.specs.Deciding.{told_deciding, IsTablesFor, IsToldUnless, HasDecided, with_one_more, decided_session};
ghost use Rattle.uvl_session.specs.Desk.{IsSession, IsSound};
ghost use Rattle.uvl_session.specs.Numbered.{all_of, decision_of, decisions_in, session_of};
ghost use Rattle.uvl_session.specs.Sessions.{session_at, OthersStay};

use crate::decision::Decision;
use crate::desk::Desk;
use crate::narrowing::narrowed;
use crate::refusal::DeskRefusal;
use crate::sessions::OpenSession;
use dd_apply::Kernel;
use dd_quant::{Literal, possible};
use dd_store::OutOfMemory;
use std::alloc::Global;
use uvl_compile::Compiled;
use uvl_decisions::{an_explanation_is_least, decisions_tell_sets, sessions_keep_a_set};
use uvl_model::{FeatureNo, products_are_sets};

/// Whether one of the decisions is on the feature.
fn is_on(decisions: &[Decision], feature: FeatureNo) -> bool
    ensures { result ≡ list_any (λ one. one.feature.0 == feature.0) decisions.now }
{
    decisions.iter().any(|one| one.feature == feature)
}

/// Whether some product that agrees with the decisions of a session has the value of a feature. It makes no node.
fn may_have(
    kernel: &Kernel,
    alloc: Global,
    it: &Compiled,
    session: &OpenSession,
    decision: Decision,
) -> Result<bool, OutOfMemory>
    requires compiled { IsCompiled it.now.model kernel.now it.now.map it.now.products }
    requires decided { IsSession it.now.model kernel.now it.now.map session.now }
    requires feature { decision.feature.0 < length it.now.model.features }
    ensures { IfOk result (λ yes. yes ≡ is_offered (Products it.now.model)
        (decisions_in it.now.model (all_of session.now.stages)) (decision_of it.now.model decision)) }
{
    // Laws, and that the model is sound: they are facts for the proof.
    products_are_sets();
    it.model.features();
    let wanted = Literal {
        var: it.map.of(decision.feature),
        value: decision.value,
    };
    possible(kernel, alloc, &session.agreeing, &[wanted])
}

impl Desk {
    /// Whether the session at a place may have the decision.
    pub(crate) fn check_at(
        &self,
        alloc: Global,
        place: usize,
        decision: Decision,
    ) -> Result<(), DeskRefusal>
        requires sound { IsSound self.now }
        requires there { place < length self.now.sessions }
        requires feature { decision.feature.0 < length self.now.main.model.features }
        ensures { (d : Entry) → IsToldAs result (told_deciding (decide_answer (Products self.now.main.model)
            (session_of self.now.main.model (get_or self.now.sessions place d).stages)
            (decision_of self.now.main.model decision))) }
    {
        // Laws, and that the model is sound: they are facts for the proof.
        products_are_sets();
        decisions_tell_sets();
        an_explanation_is_least();
        self.main.model.features();
        let found = self.sessions.at(place);
        if is_on(found.stages.closed(), decision.feature) {
            return Err(DeskRefusal::Closed);
        }
        if is_on(found.stages.standing(), decision.feature) {
            return Err(DeskRefusal::Decided);
        }
        if !may_have(&self.kernel, alloc, &self.main, found, decision)? {
            return Err(DeskRefusal::Conflict);
        }
        Ok(())
    }

    /// Puts a decision that the session at a place may have behind those that stand.
    pub(crate) fn decide_at(
        &mut self,
        alloc: Global,
        place: usize,
        decision: Decision,
    ) -> Result<(), DeskRefusal>
        requires sound { IsSound self.old }
        requires there { place < length self.old.sessions }
        requires feature { decision.feature.0 < length self.old.main.model.features }
        requires may { (d : Entry) → told_deciding (decide_answer (Products self.old.main.model)
            (session_of self.old.main.model (get_or self.old.sessions place d).stages)
            (decision_of self.old.main.model decision)) ≡ Ok tt }
        ensures sound { IsSound self.new }
        ensures decided { (d : Entry) → OnOk result ((h : ℕ)
            × (self.new.sessions ≡ set self.old.sessions place (decided_session (get_or self.old.sessions place d) decision h))) }
        ensures refused { OnErr result (self.new.sessions ≡ self.old.sessions) }
        ensures cause { (d : Entry) → IfErr result (IsTablesFor self.old.kernel
            ((with_one_more self.old.main.map self.old.main.model
            (session_of self.old.main.model (get_or self.old.sessions place d).stages)
            (decision_of self.old.main.model decision) ∷ []) ∷ [])) }
        ensures main { self.new.main ≡ self.old.main }
        ensures names { self.new.names ≡ self.old.names }
        ensures keeps { Keeps self.old.kernel self.new.kernel }
    {
        // Laws, and that the model is sound: they are facts for the proof.
        products_are_sets();
        sessions_keep_a_set();
        self.main.model.features();
        let var = self.main.map.of(decision.feature);
        let before = &self.sessions.at(place).agreeing;
        let agreeing = narrowed(&mut self.kernel, alloc, before, var, decision.value)?;
        match self.sessions.decide_at(place, decision, agreeing) {
            Ok(given_back) => {
                self.kernel.release(given_back);
                Ok(())
            }
            Err(given_back) => {
                self.kernel.release(given_back);
                Err(DeskRefusal::OutOfMemory)
            }
        }
    }
}
