//! Numbers of routers and links, which are places in the topology's lists, from 0, and of atoms.

/// A router: its place in the topology's list of routers, from 0.
#[derive(Clone, Copy, Debug, PartialEq, Eq, PartialOrd, Ord)]
pub struct RouterId(pub u16);

/// A link: its place in the topology's list of links, from 0.
#[derive(Clone, Copy, Debug, PartialEq, Eq, PartialOrd, Ord)]
pub struct LinkId(pub u16);

/// An atom: the number of an interval of addresses that no boundary of a prefix cuts (the atoms of Delta-net, NSDI 2017).
#[derive(Clone, Copy, Debug, PartialEq, Eq, PartialOrd, Ord)]
pub struct AtomId(pub u32);
