//! A cycle that is kept.

ghost use Rattle.std.specs.Prelude.{◌≡◌, IfOk};
ghost use Rattle.loop_check.specs.Following.{is_among};

use base::{List, OutOfMemory, RouterId};
use std::alloc::Global;
use std::marker::Model;
use std::sync::Arc;

/// A cycle's routers, from the first one in the topology's order on. A contract sees the list of them. A copy shares it.
#[derive(Drop)]
pub(crate) struct KeptCycle {
    routers: Arc<List<RouterId>, Global>,
}

impl Model for KeptCycle {
    ghost use Rattle.std.specs.Prelude.{List};
    ghost use Rattle.std.specs.Arc.{arc_value};
    ghost use Rattle.std.specs.Coded.{coded_list};
    ghost use Rattle.base.specs.declared.ids.RouterId.{RouterId};
    ghost use Rattle.loop_keeper.specs.Kept.{router_code};

    ghost Value = { List RouterId };

    ghost coded = { coded_list router_code };

    ghost view = { λ k. arc_value k.routers };
}

impl KeptCycle {
    /// The cycle of these routers.
    pub(crate) fn new(alloc: Global, routers: List<RouterId>) -> Result<KeptCycle, OutOfMemory>
        ensures { IfOk result (λ one. one ≡ routers) }
    {
        let routers = Arc::new(alloc, routers)?;
        Ok(KeptCycle { routers })
    }

    /// The same again.
    pub(crate) fn copy(&self) -> Result<KeptCycle, OutOfMemory>
        ensures { IfOk result (λ one. one ≡ self.now) }
    {
        let routers = Arc::try_clone(&self.routers)?;
        Ok(KeptCycle { routers })
    }

    /// The routers, from the first one on.
    pub(crate) fn routers(&self) -> &[RouterId]
        ensures { result.now ≡ self.now }
    {
        self.routers.as_slice()
    }

    /// Whether a router is one of them.
    pub(crate) fn has_router(&self, router: RouterId) -> bool
        ensures { result ≡ is_among self.now router }
    {
        self.routers.as_slice().iter().any(|r| r.0 == router.0)
    }
}
