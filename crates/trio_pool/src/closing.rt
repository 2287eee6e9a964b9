//! The end of a pool: all passes joined into one, which takes what is left.

ghost use Rattle.std.specs.Prelude.{◌≡◌, ◌+◌, ◌<◌, [], ◌∷◌, ◌++◌, length, vec_capacity, Some};
ghost use Rattle.crossbeam_queue.specs.Passes.{view, IsPassOf};
ghost use Rattle.trio_pool.specs.Jobs.{with_case};
ghost use Rattle.trio_pool.specs.Views.{account, view_of};
ghost use Rattle.trio_pool.specs.Passes.{pass_count, IsOf, OfEach, EveryPass};
ghost use Rattle.trio_pool.specs.inner.Closing.{HasEach};

use crate::cell::Pool;
use crate::job::{Job, Work};
use crate::pass::PoolPass;
use crate::rule::Token;
use crate::steps::{deal, join};

// The accounts of all passes, with the number of passes.
pub(crate) fn gather<C>(pool: &Pool<C>, mut passes: Vec<PoolPass<C>>) -> Token<C>
    requires passes { OfEach (IsOf pool.now) passes.items }
    requires every { EveryPass (pass_count pool.now) passes.items }
    ensures queue { IsPassOf pool.now.queue result }
    ensures next { (view result).next ≡ Some (pass_count pool.now) }
    ensures accounts { HasEach (view result).accounts passes.items }
{
    let Some(PoolPass { mut token, .. }) = passes.pop() else {
        unreachable!()
    };
    while let Some(PoolPass { token: other, .. }) = passes.pop() {
        join(&pool.queue, &mut token, other);
    }
    token
}

// The same with one pass more, which takes what is left.
pub(crate) fn closer<C>(pool: &Pool<C>, mut token: Token<C>) -> Token<C>
    requires queue { IsPassOf pool.now.queue token }
    requires next { (view token).next ≡ Some (pass_count pool.now) }
    ensures queue { IsPassOf pool.now.queue result }
    ensures view { view result ≡ view_of (Some (pass_count pool.now + 1)) (account (pass_count pool.now) [] [] ∷ (view token).accounts) }
{
    let mut own = deal(&pool.queue, &mut token, pool.passes);
    join(&pool.queue, &mut own, token);
    own
}

// Keeps the case of a job. A stop has none.
pub(crate) fn keep<C: Drop>(cases: &mut Vec<C>, job: Job<C>)
    requires room { length cases.old.items < vec_capacity cases.old }
    ensures cases { cases.new.items ≡ cases.old.items ++ with_case job.work [] }
    ensures room { vec_capacity cases.new ≡ vec_capacity cases.old }
{
    let Job { by: _, work } = job;
    match work {
        Work::Case(_, case) => cases.push_reserved(case),
        Work::Stop => {}
    }
}
