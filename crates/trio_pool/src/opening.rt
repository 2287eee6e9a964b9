//! The passes at the start.

ghost use Rattle.std.specs.Prelude.{◌≡◌, ℕ, ◌+◌, ◌<◌, [], Some, IfOk};
ghost use Rattle.crossbeam_queue.specs.Passes.{view, IsPassOf};
ghost use Rattle.trio_pool.specs.Views.{view_of};
ghost use Rattle.trio_pool.specs.Passes.{queue_capacity, pass_count, IsNew};

use crate::cell::Pool;
use crate::pass::PoolPass;
use crate::rule::{Queue, Token};
use crate::steps::{deal, join};
use std::alloc::{AllocError as NoMemory, Global};

// The pool, and the token that its passes are made with.
pub(crate) fn set_up<C>(
    alloc: Global,
    capacity: u32,
    passes: u32,
) -> Result<(Pool<C>, Token<C>), NoMemory>
    requires capacity { 0 < capacity }
    requires passes { 0 < passes }
    ensures pool { IfOk result (λ r. (queue_capacity r.0 ≡ capacity) × (pass_count r.0 ≡ passes)) }
    ensures dealer { IfOk result (λ r. IsPassOf r.0.queue r.1 × (view r.1 ≡ view_of (Some 0) [])) }
{
    let (queue, dealer) = Queue::ruled(alloc, capacity as usize)?;
    Ok((
        Pool {
            queue,
            passes,
            alloc,
        },
        dealer,
    ))
}

// The next pass, which isn't the last.
pub(crate) fn deal_pass<C>(pool: &Pool<C>, dealer: &mut Token<C>, number: u32) -> PoolPass<C>
    requires queue { IsPassOf pool.now.queue dealer.old }
    requires dealer { view dealer.old ≡ view_of (Some number) [] }
    requires more { number + 1 < pass_count pool.now }
    ensures queue { IsPassOf pool.now.queue dealer.new }
    ensures dealer { view dealer.new ≡ view_of (Some (number + 1)) [] }
    ensures pass { IsNew pool.now number result }
{
    let token = deal(&pool.queue, dealer, number);
    PoolPass {
        token,
        number,
        submitted: 0,
        fulls: 0,
    }
}

// The last pass.
pub(crate) fn last_pass<C>(pool: &Pool<C>, mut dealer: Token<C>) -> PoolPass<C>
    requires queue { IsPassOf pool.now.queue dealer }
    requires dealer { (n : ℕ) × (view dealer ≡ view_of (Some n) []) × (n + 1 ≡ pass_count pool.now) }
    ensures pass { (n : ℕ) × (n + 1 ≡ pass_count pool.now) × IsNew pool.now n result }
{
    let number = pool.passes - 1;
    let mut token = deal(&pool.queue, &mut dealer, number);
    join(&pool.queue, &mut token, dealer);
    PoolPass {
        token,
        number,
        submitted: 0,
        fulls: 0,
    }
}
