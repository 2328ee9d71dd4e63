//! Filters: which namespaces are wanted.

ghost use Rattle.std.specs.Prelude.{Bool};
ghost use Rattle.std.specs.Fn.{FnReturnsAt};
ghost use Rattle.namespace_id.specs.declared.namespaces.Namespace.{Namespace as Name};
ghost use Rattle.blob_feed.specs.Filters.{MayTake};

use namespace_id::Namespace;

/// A rule that says of each namespace whether it is wanted: a list of namespaces, say.
///
/// Every closure from namespaces to booleans is one. Who has a closure hands it to a function over
/// any filter, which makes the follower and uses it: where the follower's type names the closure's
/// own type, the toolchain makes no proof yet.
pub trait Filter: Drop {
    /// Holds of a namespace for which it may be asked.
    ghost can_ask: { Self → Name → Type 0 };

    /// Holds of a namespace and each answer that it may give to it.
    ghost answers: { Self → Name → Bool → Type 0 };

    /// Whether a namespace is wanted.
    fn wants(&self, namespace: &Namespace) -> bool
        requires { can_ask self.now namespace.now }
        ensures { answers self.now namespace.now result };
}

impl<F: Fn(&Namespace) -> bool + Drop> Filter for F {
    ghost can_ask = { λ f name. MayTake F.Fn f name };

    ghost answers = { λ f name wanted. FnReturnsAt F.Fn f name wanted };

    fn wants(&self, namespace: &Namespace) -> bool {
        self(namespace)
    }
}
