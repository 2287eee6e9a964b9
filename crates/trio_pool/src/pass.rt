//! A pass.

ghost use Rattle.std.specs.Prelude.{◌≡◌, [], length};
ghost use Rattle.crossbeam_queue.specs.Passes.{view};
ghost use Rattle.trio_pool.specs.Jobs.{case_count};
ghost use Rattle.trio_pool.specs.Views.{own_number, own_sent};

use crate::rule::Token;

/// What a thread puts jobs into a pool with, and takes them.
///
/// Contracts see of it its pool, its number, how many of its cases came back as Full, the jobs that
/// it put, and the jobs that it took (`specs/Passes.antt`). A pass that is dropped keeps its pool
/// from being closed.
#[derive(Drop)]
pub struct PoolPass<C> {
    pub(crate) token: Token<C>,
    pub(crate) number: u32,
    // how many cases it submitted
    pub(crate) submitted: u64,
    pub(crate) fulls: u64,
    pub ghost slot: { token.me.1 ≡ [] },
    pub ghost alone: { length (view token).accounts ≡ 1 },
    pub ghost numbered: { own_number (view token).accounts ≡ number },
    pub ghost counted: { case_count (own_sent (view token).accounts) ≡ submitted },
}
