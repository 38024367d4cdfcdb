//! What one frame of a feed comes to.

ghost use Rattle.std.specs.Prelude.{◌≡◌, ◌+◌, ◌<◌, ◌≤◌, ◌^◌, [], All, Some, IfOk, OnOk, OnErr, length};
ghost use Rattle.feed_model.specs.Feed.{IsToTableOf, step_of};
ghost use Rattle.feed_model.specs.Frames.{BeginsFrame};
ghost use Rattle.feed_model.specs.Payload.{payload_of, IsSayable};
ghost use Rattle.route_feed.specs.FeedReader.{told_after, AreOpsOf, AreOwnOps, IsFeedUpdate};
ghost use Rattle.route_feed.specs.FrameStep.{ComesTo, frame_step, IsTaken, count, IsOfFrame, HandsTo};

use crate::device::{Device, router_by};
use crate::feed_step::FeedStep;
use crate::intake::Intake;
use crate::route_op::op_of;
use crate::workspace::Workspace;
use dn_io::Source;
use dn_model::{List, Op, OutOfMemory, RouterId};
use feed_model::frame_cause::{FRAME_TYPE, UNKNOWN_INTERFACE};
use feed_model::{FeedTold, Item, ItemKind, Refused, RefusedFrame};
use fpm_frame::Next;
use rt_netlink::{NextMessage, next_message};
use std::alloc::Global;
use std::marker::Model;

/// The kind of a frame whose payload is netlink messages (FPM_MSG_TYPE_NETLINK of FRR's fpm.h).
const NETLINK: u8 = 1;

/// What the messages of a frame that were looked at came to: their updates, in order, each with its router, and how
/// many were passed over.
#[derive(Drop)]
struct Gathered {
    ops: List<(RouterId, Op)>,
    skipped: u32,
}

impl Model for Gathered {
    ghost use Rattle.feed_model.specs.Feed.{Gathered as GatheredIs};

    ghost Value = { GatheredIs };

    ghost view = { λ g. record { ops = g.ops; skipped = g.skipped } };
}

impl Gathered {
    /// Takes in the next message, unless it is refused.
    fn take_in(
        &mut self,
        device: &Device<'_>,
        item: &Item,
        workspace: &mut Workspace,
    ) -> Result<Option<Refused>, OutOfMemory>
        requires fits { self.old.skipped + 1 < 2 ^ 32 }
        requires sayable { IsSayable item.now.what }
        ensures taken { IfOk result (IsTaken device.now.topology.now device.now.router self.old item.now self.new) }
        ensures few { OnOk result (count self.new ≤ count self.old + 1) }
        ensures within { device.now.router.0 < length device.now.topology.now.routers
            → All (IsFeedUpdate device.now.topology.now) self.old.ops
            → All (IsFeedUpdate device.now.topology.now) self.new.ops }
        ensures own { All (IsToTableOf device.now.topology.now device.now.router) self.old.ops
            → All (IsToTableOf device.now.topology.now device.now.router) self.new.ops }
    {
        match item.what {
            ItemKind::Route(raw) => {
                let Device {
                    topology,
                    router,
                    ..
                } = *device;
                let Some(op) = op_of(topology, router, &raw, &mut workspace.ports) else {
                    return Ok(Some(Refused {
                        at: item.at,
                        cause: UNKNOWN_INTERFACE,
                    }));
                };
                let to = router_by(topology, router, raw.table, &mut workspace.vrfs);
                self.ops.push((to, op))?;
            }
            // No payload says an object.
            ItemKind::Object(_) => unreachable!(),
            ItemKind::Skipped(_) => self.skipped += 1,
        }
        Ok(None)
    }
}

/// The answer that refuses the frame at this offset.
fn refusal(offset: u64, refused: Refused) -> FeedStep
    ensures { result ≡ FeedStep.Refused offset refused.at refused.cause }
{
    FeedStep::Refused {
        offset,
        at: refused.at,
        cause: refused.cause,
    }
}

/// What a netlink frame at this offset comes to, with this payload: refused by its first message that is refused, else
/// accepted with all its updates, which stand in a list that had none.
fn step_said(
    room: List<(RouterId, Op)>,
    device: &Device<'_>,
    offset: u64,
    payload: &[u8],
    workspace: &mut Workspace,
) -> Result<FeedStep, OutOfMemory>
    requires empty { room ≡ [] }
    requires fits { length payload.now ≤ 65531 }
    requires inside { device.now.router.0 < length device.now.topology.now.routers }
    ensures step { IfOk result (λ step. frame_step step ≡ Some (step_of device.now.topology.now device.now.router offset
        (payload_of device.now.tables.now payload.now))) }
    ensures few { IfOk result (IsOfFrame (length payload.now)) }
    ensures within { IfOk result (AreOpsOf device.now.topology.now) }
    ensures own { IfOk result (AreOwnOps device.now.topology.now device.now.router) }
{
    let mut gathered = Gathered {
        ops: room,
        skipped: 0,
    };
    let mut left = payload;
    loop {
        let at = (payload.len() - left.len()) as u32;
        match next_message(left, device.tables) {
            NextMessage::Says(what, rest) => {
                let item = Item { at, what };
                if let Some(refused) = gathered.take_in(device, &item, workspace)? {
                    return Ok(refusal(offset, refused));
                }
                left = rest;
            }
            NextMessage::Refused(cause) => return Ok(refusal(offset, Refused { at, cause })),
            NextMessage::End => return Ok(FeedStep::Ops(gathered.ops, gathered.skipped)),
        }
    }
}

/// What a frame at this offset comes to.
fn step_of(
    alloc: Global,
    device: &Device<'_>,
    offset: u64,
    kind: u8,
    payload: &[u8],
    workspace: &mut Workspace,
) -> Result<FeedStep, OutOfMemory>
    requires fits { length payload.now ≤ 65531 }
    requires inside { device.now.router.0 < length device.now.topology.now.routers }
    ensures comes { IfOk result (ComesTo device.now.tables.now device.now.topology.now device.now.router offset
        (record { kind = kind; payload = payload.now })) }
    ensures few { IfOk result (IsOfFrame (length payload.now)) }
    ensures within { IfOk result (AreOpsOf device.now.topology.now) }
    ensures own { IfOk result (AreOwnOps device.now.topology.now device.now.router) }
{
    if kind != NETLINK {
        return Ok(FeedStep::Refused {
            offset,
            at: 0,
            cause: FRAME_TYPE,
        });
    }
    let room = workspace.ops(alloc);
    step_said(room, device, offset, payload, workspace)
}

/// Counts what a frame came to. Want of memory changes nothing.
fn tell(told: &mut FeedTold, step: &FeedStep) -> Result<(), OutOfMemory>
    requires frame { IsOfFrame 65531 step.now }
    requires updates { told.old.updates < 2 ^ 32 }
    requires skipped { told.old.skipped < 2 ^ 32 }
    ensures ok { OnOk result (told.new ≡ told_after told.old step.now) }
    ensures err { OnErr result (told.new ≡ told.old) }
{
    match step {
        FeedStep::Ops(ops, skipped) => {
            told.updates += ops.len() as u64;
            told.skipped += *skipped as u64;
            Ok(())
        }
        FeedStep::Refused { offset, at, cause } => told.refused.push(RefusedFrame {
            offset: *offset,
            at: *at,
            cause: *cause,
        }),
        _ => Ok(()),
    }
}

/// Hands out the frame that is held, of this device's feed. Want of memory changes nothing.
pub fn hand_out<S: Source>(
    alloc: Global,
    intake: &mut Intake<S>,
    told: &mut FeedTold,
    device: &Device<'_>,
    workspace: &mut Workspace,
) -> Result<FeedStep, OutOfMemory>
    requires whole { BeginsFrame intake.old.held }
    requires updates { told.old.updates < 2 ^ 32 }
    requires skipped { told.old.skipped < 2 ^ 32 }
    requires inside { device.now.router.0 < length device.now.topology.now.routers }
    requires own { device.now.router ≡ told.old.router }
    ensures hands { HandsTo device.now.tables.now device.now.topology.now result intake.old intake.new
        told.old told.new }
    ensures within { IfOk result (AreOpsOf device.now.topology.now) }
    ensures own { IfOk result (AreOwnOps device.now.topology.now device.now.router) }
{
    let step = match intake.next() {
        Next::Frame {
            offset,
            kind,
            payload,
        } => step_of(alloc, device, offset, kind, payload, workspace)?,
        _ => unreachable!(),
    };
    tell(told, &step)?;
    intake.pass();
    Ok(step)
}
