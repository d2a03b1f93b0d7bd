ghost use Rattle.std.specs.Prelude.{◌≡◌, ℕ, ◌<◌, ◌≤◌, Some, length, slice_get, IfSome, IfOk, OnOk, OnErr};
ghost use Rattle.std.specs.List.{position};
ghost use Rattle.le_layout.specs.Words.{same_word};
ghost use Rattle.le_scope.specs.declared.scope.Intro.TheVariants.{New};
ghost use Rattle.le_scope.specs.Scopes.{empty_scope, place_of, introduction, introduced, introduced_by_which, first_names, Ascend};

use le_base::Text;
use std::alloc::{AllocError, Global};
use std::marker::Model;

/// What introducing a name in a scope answers.
#[derive(Clone, Copy, Debug, PartialEq, Eq)]
pub enum Intro {
    /// The name wasn't there, and has this number now, counted from 0.
    New(u32),
    /// The name is there already.
    Again,
    /// The name isn't there, and the scope has as many names as it takes.
    Full,
}

/// The names of the variables introduced in one rule, fact or query, numbered from 0 in the order in
/// which they came, and the numbers of those that `which` introduced. Names are compared with ASCII case
/// ignored and kept as they were first spelled. Each call walks over the names, of which a document's
/// scope has at most 64.
#[derive(Drop)]
pub struct Scope {
    limit: u32,
    names: Vec<Text>,
    asked: Vec<u32>,
}

impl Model for Scope {
    ghost use Rattle.le_scope.specs.Scopes.{ScopeState, IsScope};

    ghost Value = { ScopeState };

    ghost view = { λ s. record { limit = s.limit; names = s.names.items; asked = s.asked.items } };

    ghost invariant = { λ s. IsScope (record { limit = s.limit; names = s.names.items; asked = s.asked.items }) };
}

impl Scope {
    /// A scope without names that takes so many.
    pub fn with_limit(alloc: Global, limit: u32) -> Self
        ensures { result ≡ empty_scope limit }
    {
        Scope {
            limit,
            names: Vec::new(alloc),
            asked: Vec::new(alloc),
        }
    }

    /// Introduces a name: `Again` exactly where it is there, else `Full` exactly where as many names as
    /// the limit are there, else `New` with the next number. Only with `New` the scope changes. After an
    /// error the scope is as before.
    pub fn introduce(&mut self, name: &str) -> Result<Intro, AllocError>
        ensures answer { IfOk result (λ intro. intro ≡ introduction self.old name.now) }
        ensures scope { OnOk result (self.new ≡ introduced self.old name.now) }
        ensures refused { OnErr result (self.new ≡ self.old) }
    {
        let intro = self.introduction(name);
        if let Intro::New(_) = intro {
            let alloc = *self.names.allocator();
            self.names.push(Text::of(alloc, name)?)?;
        }
        Ok(intro)
    }

    /// Introduces a name by `which`: the same as `introduce`, and with `New` the new number is noted.
    /// After an error the scope is as before.
    pub fn ask(&mut self, name: &str) -> Result<Intro, AllocError>
        ensures answer { IfOk result (λ intro. intro ≡ introduction self.old name.now) }
        ensures scope { OnOk result (self.new ≡ introduced_by_which self.old name.now) }
        ensures refused { OnErr result (self.new ≡ self.old) }
    {
        let intro = self.introduction(name);
        if let Intro::New(n) = intro {
            let alloc = *self.names.allocator();
            let text = Text::of(alloc, name)?;
            self.names.reserve(1)?;
            self.asked.push(n)?;
            self.names.push(text).unwrap();
        }
        Ok(intro)
    }

    // What introducing a name answers.
    #[tactic(auto, unfolding(crate::specs::Scopes::introduction))]
    fn introduction(&self, name: &str) -> Intro
        ensures answer { result ≡ introduction self.now name.now }
        ensures room { (n : ℕ) → result ≡ New n → (length self.now.names < self.now.limit) × (n ≡ length self.now.names) }
    {
        if self.refer(name).is_some() {
            return Intro::Again;
        }
        let count = self.count();
        if self.limit <= count {
            return Intro::Full;
        }
        Intro::New(count)
    }

    /// The number of a name, or None exactly where it isn't there.
    pub fn refer(&self, name: &str) -> Option<u32>
        ensures { result ≡ place_of self.now name.now }
    {
        let place = place(&self.names, name)?;
        Some(place as u32)
    }

    /// The name of this number, which is below the count, as it was first spelled.
    pub fn name(&self, n: u32) -> &str
        requires { n < length self.now.names }
        ensures { slice_get self.now.names n ≡ Some result.now }
    {
        self.names[n as usize].as_str()
    }

    /// The numbers of the names that `which` introduced, in order, each below the count.
    pub fn asked(&self) -> &[u32]
        ensures asked { result.now ≡ self.now.asked }
        ensures order { Ascend 0 result.now (length self.now.names) }
    {
        self.asked.as_slice()
    }

    /// How many names there are, no more than the limit. The scope is that of so many names.
    pub fn count(&self) -> u32
        ensures count { result ≡ length self.now.names }
        ensures few { result ≤ self.now.limit }
        ensures whole { first_names self.now result ≡ self.now }
    {
        self.names.len() as u32
    }

    /// Keeps the first `n` names, and of the noted numbers those below `n`.
    pub fn truncate(&mut self, n: u32)
        ensures { self.new ≡ first_names self.old n }
    {
        self.names.truncate(n as usize);
        self.asked.retain(|noted| *noted < n);
    }
}

// The place of a name among names, ASCII case ignored.
fn place(names: &[Text], name: &str) -> Option<usize>
    ensures place { result ≡ position (same_word name.now) names.now }
    ensures bound { IfSome result (λ i. i < length names.now) }
{
    names
        .iter()
        .position(|n| name.eq_ignore_ascii_case(n.as_str()))
}
