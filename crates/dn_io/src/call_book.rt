//! What a world was asked for: a list of names, each with its state.

ghost use Rattle.std.specs.Prelude.{◌≡◌, ℕ, ◌==◌, ◌<◌, Option, Some, None, [], ◌++◌, ◌∷◌, length, List, OnOk, OnErr};
ghost use Rattle.std.specs.Option.{option_copied, option_map};
ghost use Rattle.dn_io.specs.BookView.{shown_state};
ghost use Rattle.dn_io.specs.Calls.{Call, call_of, with_out, with_state, IsOutAt, state_at, state_failed, state_is_out, left_in, name_at, Out as WasOut, Refused as WasRefused, Back as CameBack};

use crate::remainder::Remainder;
use std::alloc::{AllocError, Global};
use std::marker::Model;

/// What became of a name.
#[derive(Drop)]
enum NameState {
    Out,
    Refused,
    Back {
        failed: bool,
        left: Option<Remainder>,
    },
}

/// A name that was asked for, and its state.
#[derive(Drop)]
struct Entry {
    name: String,
    state: NameState,
}

/// The names that a world was asked for, in order, each with its state: out, refused or back.
#[derive(Drop)]
pub struct CallBook {
    entries: Vec<Entry>,
}

impl Model for CallBook {
    ghost use Rattle.std.specs.Prelude.{List, map};
    ghost use Rattle.dn_io.specs.Calls.{Call};
    ghost use Rattle.dn_io.specs.BookView.{shown_entry};

    ghost Value = { List Call };

    ghost view = { λ b. map shown_entry b.entries.items };
}

impl CallBook {
    /// No name was asked for. It takes no memory.
    pub fn new(alloc: Global) -> Self
        ensures { result ≡ [] }
    {
        CallBook {
            entries: Vec::new(alloc),
        }
    }

    /// How many names were asked for.
    pub fn len(&self) -> usize
        ensures { result ≡ length self.now }
    {
        self.entries.len()
    }

    /// Whether no name was asked for.
    pub fn is_empty(&self) -> bool
        ensures { result ≡ (length self.now == 0) }
    {
        self.entries.is_empty()
    }

    /// Adds this name, whose source was handed out.
    ///
    /// # Errors
    ///
    /// Where memory is refused; the book is as before.
    pub fn add_out(&mut self, alloc: Global, name: &str) -> Result<(), AllocError>
        ensures added { OnOk result (self.new ≡ with_out self.old name.now) }
        ensures same { OnErr result (self.new ≡ self.old) }
    {
        self.add(alloc, name, NameState::Out)
    }

    /// Adds this name, which was refused.
    ///
    /// # Errors
    ///
    /// Where memory is refused; the book is as before.
    pub fn add_refused(&mut self, alloc: Global, name: &str) -> Result<(), AllocError>
        ensures added { OnOk result (self.new ≡ self.old ++ call_of name.now WasRefused ∷ []) }
        ensures same { OnErr result (self.new ≡ self.old) }
    {
        self.add(alloc, name, NameState::Refused)
    }

    fn add(&mut self, alloc: Global, name: &str, state: NameState) -> Result<(), AllocError>
        ensures added { OnOk result (self.new ≡ self.old ++ call_of name.now (shown_state state) ∷ []) }
        ensures same { OnErr result (self.new ≡ self.old) }
    {
        let name = String::from_str(alloc, name)?;
        self.entries.push(Entry { name, state })?;
        Ok(())
    }

    /// The name at this place was refused after all.
    pub fn refuse(&mut self, place: usize)
        requires { place < length self.old }
        ensures { self.new ≡ with_state self.old place WasRefused }
    {
        self.set_state(place, NameState::Refused);
    }

    /// The source at this place came back: whether it had failed, and the bytes left, where it tells them.
    pub(crate) fn come_back(&mut self, place: usize, failed: bool, left: Option<Remainder>)
        requires { place < length self.old }
        ensures { self.new ≡ with_state self.old place (CameBack failed left) }
    {
        self.set_state(place, NameState::Back { failed, left });
    }

    /// A source at this place that does not tell its bytes came back, and whether it had failed.
    pub fn come_back_untold(&mut self, place: usize, failed: bool)
        requires { place < length self.old }
        ensures { self.new ≡ with_state self.old place (CameBack failed None) }
    {
        self.set_state(place, NameState::Back { failed, left: None });
    }

    fn set_state(&mut self, place: usize, state: NameState)
        requires { place < length self.old }
        ensures { self.new ≡ with_state self.old place (shown_state state) }
    {
        self.entries[place].state = state;
    }

    /// The name at this place, from 0.
    pub fn name(&self, place: usize) -> &str
        requires { place < length self.now }
        ensures { Some result.now ≡ name_at self.now place }
    {
        self.entries[place].name.as_str()
    }

    /// Whether the source at this place is still handed out.
    pub fn is_out(&self, place: usize) -> bool
        requires { place < length self.now }
        ensures { Some result ≡ option_map state_is_out (state_at self.now place) }
    {
        self.state(place).is_out()
    }

    /// Whether the name at this place was refused, or its source came back with a fault.
    pub fn has_failed(&self, place: usize) -> bool
        requires { place < length self.now }
        ensures { Some result ≡ option_map state_failed (state_at self.now place) }
    {
        self.state(place).has_failed()
    }

    /// The bytes left in the source at this place, where it came back and told them.
    pub fn left(&self, place: usize) -> Option<&[u8]>
        requires { place < length self.now }
        ensures { Some (option_copied result) ≡ option_map left_in (state_at self.now place) }
    {
        self.state(place).left()
    }

    fn state(&self, place: usize) -> &NameState
        requires { place < length self.now }
        ensures { state_at self.now place ≡ Some (shown_state result.now) }
    {
        &self.entries[place].state
    }
}

impl NameState {
    fn is_out(&self) -> bool
        ensures { result ≡ state_is_out (shown_state self.now) }
    {
        matches!(self, NameState::Out)
    }

    fn has_failed(&self) -> bool
        ensures { result ≡ state_failed (shown_state self.now) }
    {
        match self {
            NameState::Out => false,
            NameState::Refused => true,
            NameState::Back { failed, left: _ } => *failed,
        }
    }

    fn left(&self) -> Option<&[u8]>
        ensures { option_copied result ≡ left_in (shown_state self.now) }
    {
        match self {
            NameState::Out => None,
            NameState::Refused => None,
            NameState::Back { failed: _, left } => match left {
                Some(bytes) => Some(bytes.as_slice()),
                None => None,
            },
        }
    }
}
