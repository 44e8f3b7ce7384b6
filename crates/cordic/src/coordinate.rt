// A coordinate system: its order of iterations, and the laws from which a rotation converges.
ghost use Rattle.std.specs.Prelude.{◌≡◌, ◌^◌, ◌<◌, ◌≤◌, List, map, length};
ghost use Rattle.std.specs.List.{AllByRecursion};
ghost use Rattle.stage.specs.declared.step.System.{System};
ghost use Rattle.cordic.specs.Order.{Lawful, iteration, total as total_of};
ghost use Rattle.cordic.specs.declared.order.Iteration.{Iteration};

use super::order::Row;
use stage::System;

pub trait Coordinate {
    // m
    ghost kind: { System };

    ghost order: { List Iteration };

    fn system(&self) -> System
        ensures answer { result ≡ kind };

    // The table, a row for each iteration, in order. (`map iteration` is what a table means; each system says it of its own list.)
    fn rows(&self) -> &[Row]
        ensures answer { map iteration result.now ≡ order };

    // The sum of all entries.
    fn total(&self) -> u64
        ensures answer { result ≡ total_of order };

    // every entry is above zero, the last is 1, each is at most the sum of the later ones plus 1
    ghost lawful: { Lawful order };

    // what the machine holds: entries are words, and there are at most 64 iterations
    ghost words: { AllByRecursion (λ k. k.entry < 2 ^ 31) order };

    ghost few: { length order ≤ 64 };
}
