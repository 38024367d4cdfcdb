//! Which addresses come to a router without having met a waypoint.
#![tactic(auto)]

mod missed;

pub use missed::waypoint;
