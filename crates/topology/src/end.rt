//! Ends: a router's name, a colon, and an interface's number.

ghost use Rattle.std.specs.Prelude.{◌≡◌, ◌<◌, ◌≤◌, ◌==◌, IfSome, length, position};
ghost use Rattle.std.specs.Option.{ForSome};
ghost use Rattle.dn_formats.specs.EndText.{place_of, read_end, end_at};

use dn_formats::read_number;
use dn_model::{Name, RouterId, TopoEnd};

/// The first place in a list of names that has this text.
pub fn place_of(names: &[Name], text: &[u8]) -> Option<usize>
    ensures value { result ≡ place_of names.now text.now }
    ensures within { IfSome result (λ i. i < length names.now) }
{
    names.iter().position(|name| name.as_bytes() == text)
}

/// The place of the first colon.
fn colon_in(text: &[u8]) -> Option<usize>
    ensures value { result ≡ position (λ byte. byte == 58) text.now }
    ensures within { IfSome result (λ i. i < length text.now) }
{
    text.iter().position(|byte| *byte == b':')
}

/// The interface of this number at the router of this place.
fn end_at(place: Option<usize>, index: Option<u32>) -> Option<TopoEnd>
    requires { ForSome place (λ p. p < 1024) }
    ensures { result ≡ end_at place index }
{
    match (place, index) {
        (Some(place), Some(index)) => Some(TopoEnd {
            router: RouterId(place as u16),
            index,
        }),
        _ => None,
    }
}

/// The end that a text is, and None exactly where it is none or its router is not in the list.
pub fn read_end(routers: &[Name], text: &[u8]) -> Option<TopoEnd>
    requires { length routers.now ≤ 1024 }
    ensures { result ≡ read_end routers.now text.now }
{
    match colon_in(text) {
        Some(colon) => {
            let place = place_of(routers, &text[..colon]);
            let index = read_number(&text[colon + 1..], 1, 2_147_483_647);
            end_at(place, index)
        }
        None => None,
    }
}
