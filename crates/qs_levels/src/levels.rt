//! Level certificates.

use qs_tree::Label;
use std::marker::Model;

/// A level certificate: the number of levels, and pairs of a label and its level, which counts from 0. One that fits
/// rules has at least one level, each of its levels is below their number, and no label stands in it twice.
#[derive(Drop)]
pub struct Levels {
    pub count: u32,
    pub of: Vec<(Label, u32)>,
}

impl Model for Levels {
    ghost use Rattle.qs_levels.specs.Certificates.{LevelCertificate};

    ghost Value = { LevelCertificate };

    ghost view = { λ levels. record { count = levels.count; of = levels.of.items } };
}
