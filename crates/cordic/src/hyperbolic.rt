// The hyperbolic system: m = −1, shifts 1 to 28, with 4 and 13 each done twice in a row, entry nearest to 2^28 × atanh (2^−s).
ghost use Rattle.std.specs.Prelude.{◌≡◌, map};
ghost use Rattle.stage.specs.declared.step.System.TheVariants.{Hyperbolic as HyperbolicSystem};
ghost use Rattle.std.specs.List.{AllByRecursion};
ghost use Rattle.cordic.specs.Order.{iteration};
ghost use Rattle.cordic.specs.Series.{NearAtanh, OfEntry};
ghost use Rattle.cordic.specs.Tables.{hyperbolic};
ghost use Rattle.std.proofs.Common.{rules};

use super::coordinate::Coordinate;
use super::order::{Row, rows};
use stage::System;

static ROWS: [Row; 30] = rows![
    (1, 147453245),
    (2, 68561855),
    (3, 33730852),
    (4, 16799113),
    (4, 16799113),
    (5, 8391340),
    (6, 4194645),
    (7, 2097195),
    (8, 1048581),
    (9, 524289),
    (10, 262144),
    (11, 131072),
    (12, 65536),
    (13, 32768),
    (13, 32768),
    (14, 16384),
    (15, 8192),
    (16, 4096),
    (17, 2048),
    (18, 1024),
    (19, 512),
    (20, 256),
    (21, 128),
    (22, 64),
    (23, 32),
    (24, 16),
    (25, 8),
    (26, 4),
    (27, 2),
    (28, 1),
];

#[derive(Clone, Copy)]
pub struct Hyperbolic;

impl Coordinate for Hyperbolic {
    ghost kind = { HyperbolicSystem };

    ghost order = { hyperbolic };

    ghost lawful = { unfold hyperbolic in Prim.search rules };

    ghost words = { unfold hyperbolic in Prim.search rules };

    ghost few = { unfold hyperbolic in Prim.search rules };

    fn system(&self) -> System {
        System::Hyperbolic
    }

    fn rows(&self) -> &[Row]
        ensures answer { map iteration result.now ≡ hyperbolic }
        ensures rule { AllByRecursion (OfEntry NearAtanh) (map iteration result.now) }
    {
        &ROWS
    }

    fn total(&self) -> u64 {
        300157283
    }
}
