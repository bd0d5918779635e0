//! The work of one arc, with the trees that its firings build.

ghost use Rattle.std.specs.Prelude.{◌≡◌, map};

use crate::firing::Firing;
use qs_tree::Tree;
use std::marker::Model;
use std::sync::Arc;

/// A firing and the trees that its rule's right side stands for, ready to be added. Both may have further owners; for
/// contracts they are the firing and the trees themselves.
#[derive(Drop)]
pub struct Made {
    pub firing: Arc<Firing>,
    pub trees: Vec<Arc<Tree>>,
}

impl Model for Made {
    ghost use Rattle.std.specs.Prelude.{map};
    ghost use Rattle.std.specs.Arc.{arc_value};
    ghost use Rattle.qs_firing.specs.Work.{WithTrees};
    ghost use Rattle.qs_firing.specs.working.Codes.{made_code};

    ghost Value = { WithTrees };

    ghost coded = { made_code };

    ghost view = { λ m. record { firing = arc_value m.firing; trees = map (λ t. arc_value t) m.trees.items } };
}

/// Firings of which one arc is the newest, each with the trees that it builds.
#[derive(Drop)]
pub struct Joined {
    arc: u32,
    made: Vec<Made>,
}

impl Model for Joined {
    ghost use Rattle.qs_firing.specs.Work.{WorkWithTrees};
    ghost use Rattle.qs_firing.specs.working.Codes.{joined_code};

    ghost Value = { WorkWithTrees };

    ghost coded = { joined_code };

    ghost view = { λ j. record { arc = j.arc; made = j.made.items } };
}

impl Joined {
    /// These firings, of which the arc with this number is the newest. Takes no memory.
    pub fn new(arc: u32, made: Vec<Made>) -> Joined
        ensures { result ≡ record { arc = arc; made = made.items } }
    {
        Joined { arc, made }
    }

    /// The number of the arc. Takes no memory.
    pub fn arc(&self) -> u32
        ensures { result ≡ self.now.arc }
    {
        self.arc
    }

    /// The firings in their order, each with its trees. Takes no memory.
    pub fn made(&self) -> &[Made]
        ensures { result.now ≡ self.now.made }
    {
        &self.made
    }
}
