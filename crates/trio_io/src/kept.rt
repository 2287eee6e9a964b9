//! What contracts see of the forms in memory beside what all files and sinks have.

ghost use Rattle.std.specs.Prelude.{ℕ, List, Option};
ghost use Rattle.trio_io.specs.Plan.{Plan};

/// Files that stand in memory.
///
/// Contracts see as `kept` the bytes that stand under a name, told or not; `None` where nothing
/// does.
pub trait InMemory {
    ghost kept: { Self → List ℕ → Option (List ℕ) };
}

/// Files or a sink whose calls fail by a plan.
///
/// Contracts see the plan with the count of calls so far.
pub trait Planned {
    ghost plan: { Self → Plan };
}

/// A sink that stands in memory.
///
/// Contracts see as `kept` the bytes that it has.
pub trait KeepsBytes {
    ghost kept: { Self → List ℕ };
}
