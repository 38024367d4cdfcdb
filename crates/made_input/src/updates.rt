//! The generated updates.

ghost use Rattle.std.specs.Prelude.{◌≡◌, ◌≤◌, ◌<◌, ◌++◌, OnOk, IfOk};
ghost use Rattle.feed_model.specs.Payload.{CanBeSaid};
ghost use Rattle.base.specs.Cidr.{IsCidr};
ghost use Rattle.made_input.specs.Updates.{aligned, frame_for, made_feed, made_frame, made_len, made_prefix, made_route, scattered};

use crate::network::ROUTERS;
use dn_formats::Text;
use dn_model::{OutOfMemory, Prefix};
use feed_model::{MAIN_TABLE, RawRoute, RouteKind};
use fpm_frame::write_frame;
use rt_netlink::write_route;
use std::alloc::Global;

/// A number near 2^32 over the golden ratio, whose multiples scatter over all addresses.
const SCATTER: u64 = 2_654_435_761;

/// How many addresses there are.
const ADDRESSES: u64 = 0x1_0000_0000;

/// The kind of a frame whose payload is netlink.
const NETLINK: u8 = 1;

/// The interface over which a router sends to the next one.
const NEXT: u32 = 2;

/// The prefix of an update, by its number.
#[tactic(auto, using(crate::proofs::Blocks::size_found, crate::proofs::Blocks::block_sound))]
fn prefix(j: u32) -> Prefix
    ensures value { result ≡ made_prefix j }
    ensures sound { IsCidr result }
{
    let len = (8 + j % 17) as u8;
    let address = u64::from(j) * SCATTER % ADDRESSES;
    let size = 1u64 << (32 - len);
    Prefix::new((address / size * size) as u32, len)
}

/// The route that an update sets, by its number.
fn route(j: u32) -> RawRoute
    ensures value { result ≡ made_route j }
    ensures sayable { CanBeSaid result }
{
    let own = j % 5 == 4;
    RawRoute {
        del: false,
        prefix: prefix(j),
        table: MAIN_TABLE,
        metric: Some(j % 4),
        kind: if own {
            RouteKind::Local
        } else {
            RouteKind::Unicast
        },
        via: !own,
        oif: if own { None } else { Some(NEXT) },
        by: None,
    }
}

/// Adds the frame of an update.
fn push_frame(alloc: Global, out: &mut Vec<u8>, j: u32) -> Result<(), OutOfMemory>
    ensures { OnOk result (out.new.items ≡ out.old.items ++ made_frame j) }
{
    let message = write_route(alloc, &route(j))?;
    let frame = write_frame(alloc, NETLINK, message.as_slice())?;
    out.extend_from_slice(frame.as_slice())?;
    Ok(())
}

/// Adds the frame of an update, if it goes to this router.
fn push_frame_for(alloc: Global, out: &mut Vec<u8>, router: u32, j: u32) -> Result<(), OutOfMemory>
    ensures { OnOk result (out.new.items ≡ out.old.items ++ frame_for router j) }
{
    if j % ROUTERS as u32 == router {
        push_frame(alloc, out, j)?;
    }
    Ok(())
}

/// The feed of a router: its updates among the first `n`, in order.
#[tactic(auto, using(crate::proofs::Below::feed_none, crate::proofs::Below::feed_more))]
pub fn feed(alloc: Global, router: u32, n: u32) -> Result<Text, OutOfMemory>
    ensures { IfOk result (λ text. text ≡ made_feed router n) }
{
    let mut out = Vec::new(alloc);
    for j in 0..n {
        push_frame_for(alloc, &mut out, router, j)?;
    }
    Ok(Text::from_vec(out))
}
