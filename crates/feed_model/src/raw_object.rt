//! Next-hop objects as rtnetlink messages carry them.

/// What a next-hop object's message says: RTM_DELNEXTHOP where `del`, else RTM_NEWNEXTHOP. No payload says one yet:
/// messages of these types are passed over.
#[derive(Clone, Copy, Debug, PartialEq, Eq)]
pub struct RawObject {
    pub del: bool,
    /// Its number among the objects of the device (NHA_ID).
    pub id: u32,
    /// What goes by it is dropped (NHA_BLACKHOLE).
    pub blackhole: bool,
    /// It names a gateway (NHA_GATEWAY).
    pub via: bool,
    /// The number of its interface (NHA_OIF), where it names one.
    pub oif: Option<u32>,
}
