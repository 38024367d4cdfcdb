//! The links that are down.

ghost use Rattle.std.specs.Prelude.{◌≡◌, ℕ, true, false, [], ◌≤◌, IfOk, OnOk, length, map, slice_index_or};
ghost use Rattle.std.specs.List.{list_any};
ghost use Rattle.base.specs.Links.{is_down, without};
ghost use Rattle.net_engine.specs.LinkSet.{IsFlagPut, IsLinkPut, links_from};

use dn_model::{LinkId, OutOfMemory, Target};
use std::alloc::Global;
use std::marker::Model;
use std::sync::Arc;

/// The links that are down: a flag for each link up to the last that ever was put, in one block that copies share. To see
/// whether a link is down is to read its flag, a byte. A contract sees the list of the links.
#[derive(Drop)]
pub struct LinkSet {
    flags: Arc<Vec<bool>, Global>,
    /// Whether any flag is set: where none is nothing else is read.
    some: bool,
}

impl Model for LinkSet {
    ghost use Rattle.std.specs.Prelude.{List};
    ghost use Rattle.std.specs.Arc.{arc_value};
    ghost use Rattle.base.specs.declared.ids.LinkId.{LinkId};
    ghost use Rattle.net_engine.specs.LinkSet.{AreNone, links_from};

    ghost Value = { List LinkId };

    ghost view = { λ s. links_from 0 (arc_value s.flags).items };

    ghost invariant = { λ s. AreNone s.some (arc_value s.flags).items };
}

impl LinkSet {
    /// No link. It fails for want of memory alone.
    pub fn new(alloc: Global) -> Result<LinkSet, OutOfMemory>
        ensures { IfOk result (λ links. links ≡ []) }
    {
        let flags = Arc::new(alloc, Vec::new(alloc))?;
        Ok(LinkSet { flags, some: false })
    }

    /// Whether there is none. It says so only then.
    pub fn is_empty(&self) -> bool
        ensures { result ≡ true → self.now ≡ [] }
    {
        !self.some
    }

    /// Whether a link is down.
    pub fn has(&self, link: LinkId) -> bool
        ensures { result ≡ is_down self.now link }
    {
        is_set(&self.flags, link)
    }

    /// These links, with one that is down or up. It fails for want of memory alone.
    pub fn with(&self, alloc: Global, link: LinkId, down: bool) -> Result<LinkSet, OutOfMemory>
        ensures { IfOk result (λ links. IsLinkPut self.now links link down) }
    {
        let mut flags = copy_flags(&self.flags)?;
        put_flag(&mut flags, link, down)?;
        let some = is_any(&flags);
        let flags = Arc::new(alloc, flags)?;
        Ok(LinkSet { flags, some })
    }

    /// A target, where these links are down. Where there are none it looks at no flag.
    pub fn shown(&self, target: Target) -> Target
        ensures { result ≡ without self.now target }
    {
        if !self.some {
            return target;
        }
        let mut shown = target;
        put_down(&self.flags, &mut shown);
        shown
    }

    /// Puts in the place of each of these targets what it is where these links are down. Where there are none it reads
    /// no target.
    pub fn put_over(&self, targets: &mut [Target])
        ensures { targets.new ≡ map (without self.now) targets.old }
    {
        if self.some {
            put_all_down(&self.flags, targets);
        }
    }

    /// The same links again, which share all with these. It fails for want of memory alone.
    pub fn copy(&self) -> Result<LinkSet, OutOfMemory>
        ensures { IfOk result (λ links. links ≡ self.now) }
    {
        let flags = Arc::try_clone(&self.flags)?;
        Ok(LinkSet {
            flags,
            some: self.some,
        })
    }
}

/// Whether the flag of a link is set.
fn is_set(flags: &[bool], link: LinkId) -> bool
    ensures { result ≡ is_down (links_from 0 flags.now) link }
{
    match flags.get(usize::from(link.0)) {
        Some(flag) => *flag,
        None => false,
    }
}

/// Whether any flag is set.
fn is_any(flags: &[bool]) -> bool
    ensures { result ≡ list_any (λ flag. flag) flags.now }
{
    flags.iter().any(|flag| *flag)
}

/// Puts in the place of a target what it is where the links whose flags are set are down. It is written only where that
/// is something else.
fn put_down(flags: &[bool], target: &mut Target)
    ensures { target.new ≡ without (links_from 0 flags.now) target.old }
{
    let Target::To(_, link) = *target else {
        return;
    };
    if is_set(flags, link) {
        *target = Target::LinkDown(link);
    }
}

/// The same of each of some targets.
fn put_all_down(flags: &[bool], targets: &mut [Target])
    ensures { targets.new ≡ map (without (links_from 0 flags.now)) targets.old }
{
    for target in targets.iter_mut() {
        put_down(flags, target);
    }
}

/// The same flags again.
fn copy_flags(flags: &Vec<bool>) -> Result<Vec<bool>, OutOfMemory>
    ensures { IfOk result (λ copy. copy.items ≡ flags.now.items) }
{
    Ok(flags.clone()?)
}

/// Adds flags that aren't set until there are as many as asked for.
fn lengthen(flags: &mut Vec<bool>, count: usize) -> Result<(), OutOfMemory>
    ensures long { OnOk result (count ≤ length flags.new.items) }
    ensures same { OnOk result ((k : ℕ) →
        slice_index_or flags.new.items k false ≡ slice_index_or flags.old.items k false) }
{
    while flags.len() < count {
        flags.push(false)?;
    }
    Ok(())
}

/// Puts the flag of a link.
fn put_flag(flags: &mut Vec<bool>, link: LinkId, flag: bool) -> Result<(), OutOfMemory>
    ensures { OnOk result (IsFlagPut flags.old.items flags.new.items link.0 flag) }
{
    let place = usize::from(link.0);
    lengthen(flags, place + 1)?;
    flags[place] = flag;
    Ok(())
}
