//! The open sessions.
ghost use Rattle.std.specs.Prelude.{◌≡◌, ◌<◌, [], ◌∷◌, ◌++◌, length, set, get_or, nat_le, option_map, option_copied};
ghost use Rattle.std.specs.Prelude.{is_some, IfOk, IfErr, OnOk, OnErr, vec_len, vec_capacity};
ghost use Rattle.std.specs.List.{position, remove};
ghost use Rattle.dd_store.specs.Changes.{Keeps};
ghost use Rattle.dd_store.specs.Handles.{GainsHandle, KeepsHandles};
ghost use Rattle.dd_store.specs.Table.{IsLive};
ghost use Rattle.uvl_decisions.specs.Opening.{most_sessions};
ghost use Rattle.uvl_session.specs.declared.sessions.OpenSession.{OpenSession as Session};
ghost use Rattle.uvl_session.specs.Deciding.{decided_session};
ghost use Rattle.uvl_session.specs.Sessions.{closed_session, find_session, is_named, AddsSession};

use crate::decision::Decision;
use crate::stages::Stages;
use dd_apply::Kernel;
use dd_store::{Handle, OutOfMemory};
use std::alloc::Global;
use std::marker::Model;

/// So many sessions may be open at once.
pub const MOST_SESSIONS: usize = 16;

/// A session: its name, its decisions, and the diagram of the products that agree with all of them.
#[derive(Debug, Drop)]
pub struct OpenSession {
    pub(crate) name: String,
    pub(crate) stages: Stages,
    pub(crate) agreeing: Handle,
}

/// The open sessions. Contracts see the list of them.
#[derive(Debug, Drop)]
pub struct Sessions {
    list: Vec<OpenSession>,
}

impl Model for Sessions {
    ghost use Rattle.std.specs.Prelude.{List};
    ghost use Rattle.uvl_session.specs.declared.sessions.OpenSession.{OpenSession as Entry};

    ghost Value = { List Entry };

    ghost view = { λ s. s.list.items };
}

impl Sessions {
    /// The diagram of the products that agree with all decisions of a session; none where there is no such session.
    pub fn agreeing(&self, session: &str) -> Option<&Handle>
        ensures { option_copied result ≡ option_map (λ s. s.agreeing) (find_session self.now session.now) }
    {
        match self.with_name(session) {
            Some(found) => Some(&found.agreeing),
            None => None,
        }
    }

    /// The session with a name.
    pub(crate) fn with_name(&self, name: &str) -> Option<&OpenSession>
        ensures { option_copied result ≡ find_session self.now name.now }
    {
        found_in(&self.list, name)
    }

    /// The place of the session with a name.
    pub(crate) fn place_of(&self, name: &str) -> Option<usize>
        ensures { result ≡ position (is_named name.now) self.now }
    {
        place_in(&self.list, name)
    }

    /// Whether a session has the name.
    pub(crate) fn has(&self, name: &str) -> bool
        ensures { result ≡ is_some (find_session self.now name.now) }
    {
        self.with_name(name).is_some()
    }

    /// Whether no more may be opened.
    pub(crate) fn is_full(&self) -> bool
        ensures { result ≡ nat_le most_sessions (length self.now) }
    {
        self.list.len() >= MOST_SESSIONS
    }

    /// Adds a session that has no decision, with one more handle on a diagram.
    pub(crate) fn add(
        &mut self,
        kernel: &mut Kernel,
        alloc: Global,
        products: &Handle,
        name: &str,
    ) -> Result<(), OutOfMemory>
        requires { IsLive kernel.old products.now }
        ensures added { OnOk result (AddsSession self.old self.new name.now products.now) }
        ensures gained { OnOk result (GainsHandle kernel.old kernel.new products.now) }
        ensures refused { OnErr result (self.new ≡ self.old) }
        ensures handles { OnErr result (KeepsHandles kernel.old kernel.new) }
        ensures keeps { Keeps kernel.old kernel.new }
    {
        // The table is sound also where nothing is done.
        kernel.order();
        self.list.reserve(1)?;
        let name = String::from_str(alloc, name)?;
        let agreeing = kernel.copy(products)?;
        let session = OpenSession {
            name,
            stages: Stages::new(alloc),
            agreeing,
        };
        push_within_capacity(&mut self.list, session);
        Ok(())
    }

    /// Takes the session at a place out, and answers its handle.
    pub(crate) fn remove_at(&mut self, place: usize) -> Handle
        requires { place < length self.old }
        ensures handle { (d : Session) → result ≡ (get_or self.old place d).agreeing }
        ensures list { self.new ≡ remove self.old place }
    {
        let session = self.list.remove(place);
        session.agreeing
    }

    /// Closes the decisions of the session at a place.
    pub(crate) fn close_at(&mut self, place: usize)
        requires { place < length self.old }
        ensures { (d : Session) → self.new ≡ set self.old place (closed_session (get_or self.old place d)) }
    {
        self.list[place].stages.close();
    }

    /// The session at a place.
    pub(crate) fn at(&self, place: usize) -> &OpenSession
        requires { place < length self.now }
        ensures { (d : Session) → result.now ≡ get_or self.now place d }
    {
        &self.list[place]
    }

    /// Adds a decision to the session at a place, with the handle that goes with it, and answers the handle that it had.
    /// Where memory is wanting, all is as before, and the new handle is answered.
    pub(crate) fn decide_at(
        &mut self,
        place: usize,
        decision: Decision,
        agreeing: Handle,
    ) -> Result<Handle, Handle>
        requires { place < length self.old }
        ensures list { (d : Session) → OnOk result
            (self.new ≡ set self.old place (decided_session (get_or self.old place d) decision agreeing)) }
        ensures handle { (d : Session) → IfOk result (λ h. h ≡ (get_or self.old place d).agreeing) }
        ensures refused { OnErr result (self.new ≡ self.old) }
        ensures back { IfErr result (λ h. h ≡ agreeing) }
    {
        self.list[place].decide(decision, agreeing)
    }
}

impl OpenSession {
    /// Adds a decision, with the handle that goes with it, and answers the handle before. Where memory is wanting, all is
    /// as before, and the new handle is answered.
    fn decide(&mut self, decision: Decision, agreeing: Handle) -> Result<Handle, Handle>
        ensures decided { OnOk result (self.new ≡ decided_session self.old decision agreeing) }
        ensures handle { IfOk result (λ h. h ≡ self.old.agreeing) }
        ensures refused { OnErr result (self.new ≡ self.old) }
        ensures back { IfErr result (λ h. h ≡ agreeing) }
    {
        match self.stages.push(decision) {
            Ok(()) => Ok(std::mem::replace(&mut self.agreeing, agreeing)),
            Err(_) => Err(agreeing),
        }
    }
}

/// Puts a session last in a vector that has room for it.
fn push_within_capacity(list: &mut Vec<OpenSession>, session: OpenSession)
    requires { vec_len list.old < vec_capacity list.old }
    ensures { list.new.items ≡ list.old.items ++ session ∷ [] }
{
    let _room = list.push(session);
}

/// The session with a name.
fn found_in<'a>(list: &'a [OpenSession], name: &str) -> Option<&'a OpenSession>
    ensures { option_copied result ≡ find_session list.now name.now }
{
    match place_in(list, name) {
        Some(place) => Some(&list[place]),
        None => None,
    }
}

/// The place of the session with a name.
fn place_in(list: &[OpenSession], name: &str) -> Option<usize>
    ensures { result ≡ position (is_named name.now) list.now }
{
    list.iter().position(|one| one.name.as_str() == name)
}
