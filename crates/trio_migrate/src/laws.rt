//! What a migration keeps.

ghost use Rattle.trio_migrate.specs.Migrated.{MigrationKeeps};

/// What verifies by version 1 verifies by today's version with bytes 8 to 11 alone changed, and its
/// nodes are the same.
pub fn migration_keeps()
    ensures { MigrationKeeps }
{}
