// The circular system: m = +1, shifts 0 to 28, entry nearest to 2^28 × atan (2^−s).
ghost use Rattle.std.specs.Prelude.{◌≡◌, map};
ghost use Rattle.stage.specs.declared.step.System.TheVariants.{Circular as CircularSystem};
ghost use Rattle.std.specs.List.{AllByRecursion};
ghost use Rattle.cordic.specs.Order.{iteration};
ghost use Rattle.cordic.specs.Series.{NearAtan, OfEntry};
ghost use Rattle.cordic.specs.Tables.{circular};
ghost use Rattle.std.proofs.Common.{rules};

use super::coordinate::Coordinate;
use super::order::{Row, rows};
use stage::System;

static ROWS: [Row; 29] = rows![
    (0, 210828714),
    (1, 124459457),
    (2, 65760959),
    (3, 33381290),
    (4, 16755422),
    (5, 8385879),
    (6, 4193963),
    (7, 2097109),
    (8, 1048571),
    (9, 524287),
    (10, 262144),
    (11, 131072),
    (12, 65536),
    (13, 32768),
    (14, 16384),
    (15, 8192),
    (16, 4096),
    (17, 2048),
    (18, 1024),
    (19, 512),
    (20, 256),
    (21, 128),
    (22, 64),
    (23, 32),
    (24, 16),
    (25, 8),
    (26, 4),
    (27, 2),
    (28, 1),
];

#[derive(Clone, Copy)]
pub struct Circular;

impl Coordinate for Circular {
    ghost kind = { CircularSystem };

    ghost order = { circular };

    ghost lawful = { unfold circular in Prim.search rules };

    ghost words = { unfold circular in Prim.search rules };

    ghost few = { unfold circular in Prim.search rules };

    fn system(&self) -> System {
        System::Circular
    }

    fn rows(&self) -> &[Row]
        ensures answer { map iteration result.now ≡ circular }
        ensures rule { AllByRecursion (OfEntry NearAtan) (map iteration result.now) }
    {
        &ROWS
    }

    fn total(&self) -> u64 {
        467959938
    }
}
