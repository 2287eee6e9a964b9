//! The calls of the pool.

ghost use Rattle.std.specs.Prelude.{◌≡◌, ◌≤◌, List, [], ◌∷◌, ◌++◌, length, IfOk, IfErr, MatchResult};
ghost use Rattle.trio_pool.specs.declared.job.Job.{Job};
ghost use Rattle.trio_pool.specs.Jobs.{case_job, stop_job, case_count, cases_of};
ghost use Rattle.trio_pool.specs.Passes.{queue_capacity, pass_count, number, fulls, sent, took, count_up, IsOf, IsSamePass, HeldJobs, IsTake, OfEach, AllNew, EveryPass, AreOneLine};

use crate::cell::Pool;
use crate::closing::{closer, gather, keep};
use crate::job::{Job, Work};
use crate::opening::{deal_pass, last_pass, set_up};
use crate::pass::PoolPass;
use crate::steps::{count, empty, put, take, wait_forever};
use crate::taken::{Full, Taken};
use std::alloc::{AllocError as NoMemory, Global};
use std::sync::Wait;

impl<C: Drop> Pool<C> {
    /// A pool whose queue can hold `capacity` jobs, 1 to 64, and its passes, 1 to 64 of them. The
    /// pass of number k stands at place k, from 0 on; it has put and taken nothing.
    ///
    /// `NoMemory`: nothing was made. Of the other calls only `close` takes memory.
    pub fn start(
        alloc: Global,
        capacity: u32,
        passes: u32,
    ) -> Result<(Pool<C>, Vec<PoolPass<C>>), NoMemory>
        requires capacity { (1 ≤ capacity) × (capacity ≤ 64) }
        requires passes { (1 ≤ passes) × (passes ≤ 64) }
        ensures pool { IfOk result (λ r. (queue_capacity r.0 ≡ capacity) × (pass_count r.0 ≡ passes)) }
        ensures passes { IfOk result (λ r. (length r.1.items ≡ passes) × AllNew r.0 r.1.items) }
    {
        let mut all = Vec::with_capacity(alloc, passes as usize)?;
        let (pool, mut dealer) = set_up(alloc, capacity, passes)?;
        for number in 0..passes - 1 {
            all.push_reserved(deal_pass(&pool, &mut dealer, number));
        }
        all.push_reserved(last_pass(&pool, dealer));
        Ok((pool, all))
    }

    /// Submits a case. Its name is the number of the pass and how many cases the pass had submitted
    /// before it.
    ///
    /// `Err`: the queue held as many jobs as it can at a moment of the call. The case comes back, and
    /// the pass is as before, but for its count of such answers. The count rose by one, or stands at
    /// its last value, 2^64 - 1.
    ///
    /// Once a pass has submitted 2^64 - 1 cases it waits forever.
    pub fn submit<R: Wait>(&self, rt: &R, pass: &mut PoolPass<C>, case: C) -> Result<(), C>
        requires pass { IsOf self.now pass.old }
        ensures same { IsSamePass pass.old pass.new × (took pass.new ≡ took pass.old) }
        ensures sent { MatchResult result (λ _. sent pass.new ≡ sent pass.old ++ case_job (number pass.old) (case_count (sent pass.old)) case ∷ []) (λ c. (c ≡ case) × (sent pass.new ≡ sent pass.old)) }
        ensures fulls { MatchResult result (λ _. fulls pass.new ≡ fulls pass.old) (λ _. fulls pass.new ≡ count_up (fulls pass.old)) }
        ensures full { IfErr result (λ _. HeldJobs self.now pass.old (queue_capacity self.now)) }
    {
        if pass.submitted == u64::MAX {
            // no name is left for the case
            wait_forever(rt);
        }
        let job = Job {
            by: pass.number,
            work: Work::Case(pass.submitted, case),
        };
        match put(rt, &self.queue, &mut pass.token, job) {
            Ok(()) => {
                pass.submitted += 1;
                Ok(())
            }
            Err(Job { by: _, work }) => {
                if pass.fulls < u64::MAX {
                    pass.fulls += 1;
                }
                let Work::Case(_, case) = work else {
                    unreachable!()
                };
                Err(case)
            }
        }
    }

    /// Puts a stop, for whichever pass takes it.
    ///
    /// `Full`: the queue held as many jobs as it can at a moment of the call. The pass is as before.
    pub fn stop<R: Wait>(&self, rt: &R, pass: &mut PoolPass<C>) -> Result<(), Full>
        requires pass { IsOf self.now pass.old }
        ensures same { IsSamePass pass.old pass.new × (took pass.new ≡ took pass.old) × (fulls pass.new ≡ fulls pass.old) }
        ensures sent { MatchResult result (λ _. sent pass.new ≡ sent pass.old ++ stop_job (number pass.old) ∷ []) (λ _. sent pass.new ≡ sent pass.old) }
        ensures full { IfErr result (λ _. HeldJobs self.now pass.old (queue_capacity self.now)) }
    {
        let job = Job {
            by: pass.number,
            work: Work::Stop,
        };
        match put(rt, &self.queue, &mut pass.token, job) {
            Ok(()) => Ok(()),
            Err(Job { by: _, work }) => {
                let Work::Stop = work else { unreachable!() };
                Err(Full)
            }
        }
    }

    /// Takes a job. Those of any one pass come in the order in which it put them (`in_order`).
    ///
    /// `Nothing`: the queue held no job at a moment of the call. The pass is as before.
    pub fn take<R: Wait>(&self, rt: &R, pass: &mut PoolPass<C>) -> Taken<C>
        requires pass { IsOf self.now pass.old }
        ensures same { IsSamePass pass.old pass.new × (sent pass.new ≡ sent pass.old) × (fulls pass.new ≡ fulls pass.old) }
        ensures took { IsTake self.now pass.old pass.new result }
    {
        match take(rt, &self.queue, &mut pass.token) {
            None => Taken::Nothing,
            Some(Job { by: _, work }) => match work {
                Work::Case(_, case) => Taken::Case(case),
                Work::Stop => Taken::Stop,
            },
        }
    }

    /// The cases that were left, once every pass has come back. What the passes put and took, and
    /// what was left, are then parts of one line.
    ///
    /// `NoMemory`: the pool and its passes come back as they were.
    pub fn close<R: Wait>(
        self,
        rt: &R,
        passes: Vec<PoolPass<C>>,
    ) -> Result<Vec<C>, (Pool<C>, Vec<PoolPass<C>>, NoMemory)>
        requires passes { OfEach (IsOf self) passes.items }
        requires every { EveryPass (pass_count self) passes.items }
        ensures line { IfOk result (λ cases. (left : List (Job C)) × (cases_of left ≡ cases.items) × AreOneLine (pass_count self) passes.items left) }
        ensures err { IfErr result (λ e. (e.0 ≡ self) × (e.1 ≡ passes)) }
    {
        let Ok(mut cases) = Vec::with_capacity(self.alloc, self.queue.capacity()) else {
            return Err((self, passes, NoMemory));
        };
        let token = gather(&self, passes);
        let mut token = closer(&self, token);
        count(rt, &self.queue, &mut token);
        while let Some(job) = empty(rt, &self.queue, &mut token) {
            keep(&mut cases, job);
        }
        Ok(cases)
    }
}
