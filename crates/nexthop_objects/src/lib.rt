//! Next-hop objects of Linux (RTM_NEWNEXTHOP of rtnetlink(7)): what each object of a device does, and which routes go
//! by it, so that one message that moves an object moves all of them.
//!
//! What histories with objects come to are laws: by `flat_is_same` the routers do with each address what they do after
//! a history that sets and clears each route by itself (`flat` of `specs/Flat.antt`), and those of `book_laws.rt` say
//! how objects and users follow a history (`IsBookAfter` of `specs/Book.antt`).
#![tactic(auto)]

mod book_laws;
mod keys;
mod laws;
mod objects;

pub use book_laws::{
    book_begins_empty, clear_takes_users, link_keeps_book, no_object_takes_users,
    object_sets_target, set_by_adds_user, set_takes_users, users_go_one_by_one,
};
pub use laws::{flat_has_no_objects, flat_is_same, no_object_clears, object_moves};
pub use objects::Objects;
