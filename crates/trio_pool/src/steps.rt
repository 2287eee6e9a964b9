//! The steps on the queue.

ghost use Rattle.std.specs.Prelude.{◌≡◌, ℕ, ◌+◌, ◌<◌, ◌≤◌, [], ◌∷◌, length, Some, None, MatchOption, MatchResult};
ghost use Rattle.crossbeam_queue.specs.Fifo.{Held};
ghost use Rattle.crossbeam_queue.specs.Passes.{view, IsPassOf, IsSamePass, ruled_capacity};
ghost use Rattle.trio_pool.specs.Jobs.{case_count, IsNamed};
ghost use Rattle.trio_pool.specs.Views.{account, view_of, own_number, own_sent};
ghost use Rattle.trio_pool.specs.inner.Steps.{Put, Took, Emptied, Stands, Counted, HasAll, both};

use crate::job::Job;
use crate::plays::{Deals, Empties, Gathers, Puts, Takes};
use crate::rule::{Queue, Token};
use std::sync::Wait;

// Puts a job. It comes back only where the queue was full at a moment of the call.
pub(crate) fn put<C, R: Wait>(
    rt: &R,
    queue: &Queue<C>,
    token: &mut Token<C>,
    job: Job<C>,
) -> Result<(), Job<C>>
    requires queue { IsPassOf queue.now token.old }
    requires alone { length (view token.old).accounts ≡ 1 }
    requires by { job.by ≡ own_number (view token.old).accounts }
    requires named { IsNamed (case_count (own_sent (view token.old).accounts)) job.work }
    ensures queue { IsSamePass token.old token.new }
    ensures put { MatchResult result (λ _. Put (view token.old) job (view token.new)) (λ x. (x ≡ job) × (view token.new ≡ view token.old) × Held (ruled_capacity queue.now) (Stands (view token.old))) }
{
    queue.push_as::<Puts, R>(rt, token, job)
}

// Takes a job. There is none only where the queue was empty at a moment of the call.
pub(crate) fn take<C, R: Wait>(rt: &R, queue: &Queue<C>, token: &mut Token<C>) -> Option<Job<C>>
    requires queue { IsPassOf queue.now token.old }
    requires alone { length (view token.old).accounts ≡ 1 }
    ensures queue { IsSamePass token.old token.new }
    ensures took { MatchOption result ((view token.new ≡ view token.old) × Held 0 (Stands (view token.old))) (λ x. Took (view token.old) x (view token.new)) }
{
    queue.pop_as::<Takes, R>(rt, token)
}

// Takes a job with every account.
pub(crate) fn empty<C, R: Wait>(rt: &R, queue: &Queue<C>, token: &mut Token<C>) -> Option<Job<C>>
    requires queue { IsPassOf queue.now token.old }
    requires some { 0 < length (view token.old).accounts }
    requires all { HasAll (view token.old) }
    ensures queue { IsSamePass token.old token.new }
    ensures took { MatchOption result ((view token.new ≡ view token.old) × Held 0 (Counted (view token.old))) (λ x. Emptied (view token.old) x (view token.new)) }
{
    queue.pop_as::<Empties, R>(rt, token)
}

// Learns that what was put and not taken has room in the queue.
pub(crate) fn count<C, R: Wait>(rt: &R, queue: &Queue<C>, token: &mut Token<C>)
    requires queue { IsPassOf queue.now token.old }
    requires all { HasAll (view token.old) }
    ensures queue { IsSamePass token.old token.new × (view token.new ≡ view token.old) }
    ensures count { (n : ℕ) × (n ≤ ruled_capacity queue.now) × Held n (Counted (view token.old)) }
{
    queue.len_as::<Empties, R>(rt, token);
}

// Makes the next pass.
pub(crate) fn deal<C>(queue: &Queue<C>, dealer: &mut Token<C>, number: u32) -> Token<C>
    requires queue { IsPassOf queue.now dealer.old }
    requires next { (view dealer.old).next ≡ Some number }
    ensures queue { IsSamePass dealer.old dealer.new × IsPassOf queue.now result }
    ensures dealer { view dealer.new ≡ view_of (Some (number + 1)) (view dealer.old).accounts }
    ensures dealt { view result ≡ view_of None (account number [] [] ∷ []) }
{
    queue.another::<Deals>(dealer)
}

// Takes in the other's accounts.
pub(crate) fn join<C>(queue: &Queue<C>, token: &mut Token<C>, other: Token<C>)
    requires queue { IsPassOf queue.now token.old × IsPassOf queue.now other }
    ensures queue { IsSamePass token.old token.new }
    ensures both { view token.new ≡ both (view token.old) (view other) }
{
    queue.absorb::<Gathers>(token, other);
}

// Waits forever.
pub(crate) fn wait_forever<R: Wait>(rt: &R)
    ensures { ⊥ }
{
    for _ in rt.forever() {}
    unreachable!()
}
