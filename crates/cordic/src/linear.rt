// The linear system: m = 0, shifts 1 to 28, entry 2^(28 − s). (Each of the three systems gives its own data and rule to the one trait.)
ghost use Rattle.std.specs.Prelude.{◌≡◌, map};
ghost use Rattle.stage.specs.declared.step.System.TheVariants.{Linear as LinearSystem};
ghost use Rattle.std.specs.List.{AllByRecursion};
ghost use Rattle.cordic.specs.Order.{iteration};
ghost use Rattle.cordic.specs.Series.{PowerEntry, OfEntry};
ghost use Rattle.cordic.specs.Tables.{linear};
ghost use Rattle.std.proofs.Common.{rules};

use super::coordinate::Coordinate;
use super::order::{Row, rows};
use stage::System;

static ROWS: [Row; 28] = rows![
    (1, 134217728),
    (2, 67108864),
    (3, 33554432),
    (4, 16777216),
    (5, 8388608),
    (6, 4194304),
    (7, 2097152),
    (8, 1048576),
    (9, 524288),
    (10, 262144),
    (11, 131072),
    (12, 65536),
    (13, 32768),
    (14, 16384),
    (15, 8192),
    (16, 4096),
    (17, 2048),
    (18, 1024),
    (19, 512),
    (20, 256),
    (21, 128),
    (22, 64),
    (23, 32),
    (24, 16),
    (25, 8),
    (26, 4),
    (27, 2),
    (28, 1),
];

#[derive(Clone, Copy)]
pub struct Linear;

impl Coordinate for Linear {
    ghost kind = { LinearSystem };

    ghost order = { linear };

    ghost lawful = { unfold linear in Prim.search rules };

    ghost words = { unfold linear in Prim.search rules };

    ghost few = { unfold linear in Prim.search rules };

    fn system(&self) -> System {
        System::Linear
    }

    fn rows(&self) -> &[Row]
        ensures answer { map iteration result.now ≡ linear }
        ensures rule { AllByRecursion (OfEntry PowerEntry) (map iteration result.now) }
    {
        &ROWS
    }

    fn total(&self) -> u64 {
        268435455
    }
}
