//! Firings.

ghost use Rattle.std.specs.Prelude.{◌≡◌, IfOk};

use qs_pattern::Subst;
use std::alloc::AllocError;
use std::marker::Model;

/// A firing: a rule by its number, a path by the numbers of its arcs, and a substitution.
#[derive(Drop)]
pub struct Firing {
    pub rule: u32,
    pub path: Vec<u32>,
    pub subst: Subst,
}

impl Model for Firing {
    ghost use Rattle.qs_firing.specs.Firings.{Firing as FiringOfRule};
    ghost use Rattle.qs_firing.specs.working.Codes.{firing_code};

    ghost Value = { FiringOfRule };

    ghost coded = { firing_code };

    ghost view = { λ f. record { rule = f.rule; path = f.path.items; values = f.subst } };
}

impl Firing {
    /// An equal firing.
    pub fn copy(&self) -> Result<Firing, AllocError>
        ensures { IfOk result (λ f. f ≡ self.now) }
    {
        Ok(Firing {
            rule: self.rule,
            path: self.path.clone()?,
            subst: self.subst.copy()?,
        })
    }
}
