//! Firings that are done.

use qs_firing::Firing;
use std::marker::Model;
use std::sync::Arc;

/// A firing that is done, the number of the first arc of its result, and whether it met that arc, which stood already:
/// then it added none, and that arc alone is its result. The firing may have further owners.
#[derive(Drop)]
pub struct Fired {
    pub firing: Arc<Firing>,
    pub first: u32,
    pub met: bool,
}

impl Model for Fired {
    ghost use Rattle.std.specs.Arc.{arc_value};
    ghost use Rattle.qs_core.specs.Core.{Fired as FiredWithResult};
    ghost use Rattle.qs_core.specs.working.Codes.{fired_code};

    ghost Value = { FiredWithResult };

    ghost coded = { fired_code };

    ghost view = { λ f. record { firing = arc_value f.firing; first = f.first; met = f.met } };
}
