//! Rows of forwarding, by place.

ghost use Rattle.std.specs.Prelude.{◌≡◌, ℕ, ◌+◌, ◌<◌, ◌≤◌, List, length, slice_index_or};
ghost use Rattle.base.specs.Forwarding.{AreForwarding, target_of};
ghost use Rattle.base.specs.declared.forwarding_row.ForwardingRow.{ForwardingRow};
ghost use Rattle.base.specs.declared.target.Target.{Target as TargetIs};
ghost use Rattle.label_view.specs.Places.{AreRunsFrom};

use crate::runs::run_of;
use base::{RouterId, Run, Target};

/// What all routers do with all addresses: rows in order, which cover the addresses from 0 to 2^32 once, each with what
/// every router does with its addresses. A row is named by its place in that list, from 0. No call takes memory.
pub trait LabelView {
    // How many routers there are.
    ghost width: { Self → ℕ };

    // The rows, in order.
    ghost rows: { Self → List ForwardingRow };

    /// How many routers there are, which is at most 1,024.
    fn routers(&self) -> u32
        ensures value { result ≡ width self.now }
        ensures form { AreForwarding (width self.now) (rows self.now) };

    /// How many rows there are.
    fn atoms(&self) -> u64
        ensures value { result ≡ length (rows self.now) }
        ensures form { AreForwarding (width self.now) (rows self.now) };

    /// The bounds of the row at a place: its first address, and the one after its last, which is at most 2^32.
    fn bounds(&self, i: u64) -> (u64, u64)
        requires { i < length (rows self.now) }
        ensures low { (d : ForwardingRow) → result.0 ≡ (slice_index_or (rows self.now) i d).low }
        ensures past { (d : ForwardingRow) → result.1 ≡ (slice_index_or (rows self.now) i d).past };

    /// The runs of the addresses of rows side by side, from the one at a place on, put into `out` from its front: as many
    /// as the view has together there and `out` has room for, one at least. It answers how many.
    fn runs(&self, i: u64, out: &mut [Run]) -> usize
        requires place { i < length (rows self.now) }
        requires room { 0 < length out.old }
        ensures some { 0 < result }
        ensures within { result ≤ length out.new }
        ensures inside { i + result ≤ length (rows self.now) }
        ensures room { length out.new ≡ length out.old }
        ensures runs { AreRunsFrom (rows self.now) i result out.new }
    {
        let _rows = self.atoms();
        let (low, past) = self.bounds(i);
        out[0] = run_of(low, past);
        1
    }

    /// The place of the row that has an address.
    fn atom_of(&self, a: u32) -> u64
        ensures inside { result < length (rows self.now) }
        ensures from { (d : ForwardingRow) → (slice_index_or (rows self.now) result d).low ≤ a }
        ensures to { (d : ForwardingRow) → a < (slice_index_or (rows self.now) result d).past };

    /// What a router does with the addresses of the row at a place.
    fn target(&self, r: RouterId, i: u64) -> Target
        requires router { r.0 < width self.now }
        requires place { i < length (rows self.now) }
        ensures { (d : ForwardingRow) → result ≡ target_of (slice_index_or (rows self.now) i d) r };

    /// What a router does with the addresses of rows side by side, from the one at a place on, put into `out` from its
    /// front: as many as the view has together there and `out` has room for, one at least. It answers how many.
    fn column(&self, r: RouterId, i: u64, out: &mut [Target]) -> usize
        requires router { r.0 < width self.now }
        requires place { i < length (rows self.now) }
        requires room { 0 < length out.old }
        ensures some { 0 < result }
        ensures within { result ≤ length out.new }
        ensures inside { i + result ≤ length (rows self.now) }
        ensures room { length out.new ≡ length out.old }
        ensures targets { (k : ℕ) → (d : ForwardingRow) → (e : TargetIs) → k < result →
            slice_index_or out.new k e ≡ target_of (slice_index_or (rows self.now) (i + k) d) r };

    /// What each router does with the addresses of the row at a place, by router, put into `out`.
    fn row(&self, i: u64, out: &mut [Target])
        requires place { i < length (rows self.now) }
        requires wide { length out.old ≡ width self.now }
        ensures { (d : ForwardingRow) → out.new ≡ (slice_index_or (rows self.now) i d).targets };
}
