//! Jobs, and the threads that do them.

ghost use Rattle.std.specs.Prelude.{◌≡◌, ◌<◌, ℕ, length, slice_index_or, true, IfOk, IfErr, All, ◌+◌, ◌*◌};

use std::alloc::{AllocError, Global};
use std::snapshot::Snapshot;
use std::sync::Wait;
use std::thread;
use std::thread::{Promise, Scope, Threads};

/// What a thread is to do.
pub trait Job {
    /// What it returns.
    type Output;

    /// When it can be done.
    ghost can_run: { Self → Type 0 };

    /// What it may return.
    ghost gives: { Self → Self.Output → Type 0 };

    /// Does it.
    fn run(self) -> Self::Output
        requires { can_run self }
        ensures { gives self result };
}

// That a thread's result is one that its job may return.
#[derive(Drop)]
struct Given<J> {
    job: Snapshot<J>,
}

impl<J: Job<Output = X>, X> Promise<X> for Given<J> {
    ghost kept_by = { λ given result. J.gives given.job.value result };
}

/// Why not all jobs were run.
#[derive(Clone, Copy, PartialEq, Eq)]
pub enum NotRun {
    /// A thread could not be started.
    NoThread,
    /// Memory ran out for the results.
    NoMemory,
}

impl From<AllocError> for NotRun {
    ghost use Rattle.thread_jobs.specs.declared.jobs.NotRun.TheVariants.{NoMemory};

    ghost from_gives = { λ _ result. result ≡ NoMemory };

    fn from(_: AllocError) -> NotRun {
        NotRun::NoMemory
    }
}

// Starts a thread for the last job, then those for the jobs before it, and joins it. The vector gets room for all
// results. If no thread can be started, that is a fault, or the job is done here, after those before it.
fn run_from<'s, 'e: 's, R: Threads, J: Job<Output = X> + Send + Drop + 's, X: Send + Drop + 's>(
    rt: &R,
    scope: &'s Scope<'s, &'e ()>,
    alloc: Global,
    all: usize,
    mut jobs: Vec<J>,
    needs_threads: bool,
) -> Result<Vec<X>, NotRun>
    requires { All (λ job. J.can_run job) jobs.items }
    ensures len { IfOk result (λ done. length done.items ≡ length jobs.items) }
    ensures each { IfOk result (λ done. (k : ℕ) (d : _) (e : _) → k < length jobs.items → J.gives (slice_index_or jobs.items k d) (slice_index_or done.items k e)) }
{
    let Some(job) = jobs.pop() else {
        return Ok(Vec::with_capacity(alloc, all)?);
    };
    let given = Given {
        job: Snapshot::of(&job),
    };
    let (rest, last) = match scope.spawn_with(
        given,
        move || -> X
            requires { J.can_run job }
            ensures { J.gives job result }
        { job.run() },
    ) {
        Ok(thread) => {
            let rest = run_from(rt, scope, alloc, all, jobs, needs_threads);
            (rest, thread.join(rt))
        }
        Err(_) if needs_threads => return Err(NotRun::NoThread),
        Err(refused) => {
            let rest = run_from(rt, scope, alloc, all, jobs, needs_threads);
            (rest, (refused.value)())
        }
    };
    let mut done = rest?;
    match done.push(last) {
        Ok(()) => Ok(done),
        Err(_) => Err(NotRun::NoMemory),
    }
}

// Runs jobs in a scope of their own.
fn run_in_scope<R: Threads + Wait, J: Job<Output = X> + Send + Drop, X: Send + Drop>(
    rt: &R,
    alloc: Global,
    jobs: Vec<J>,
    needs_threads: bool,
) -> Result<Vec<X>, NotRun>
    requires { All (λ job. J.can_run job) jobs.items }
    ensures len { IfOk result (λ done. length done.items ≡ length jobs.items) }
    ensures each { IfOk result (λ done. (k : ℕ) (d : _) (e : _) → k < length jobs.items → J.gives (slice_index_or jobs.items k d) (slice_index_or done.items k e)) }
{
    thread::scope(
        thread::scope_env(),
        rt,
        move |scope| -> Result<Vec<X>, NotRun>
            requires { All (λ job. J.can_run job) jobs.items }
            ensures len { IfOk result (λ done. length done.items ≡ length jobs.items) }
            ensures each { IfOk result (λ done. (k : ℕ) (d : _) (e : _) → k < length jobs.items → J.gives (slice_index_or jobs.items k d) (slice_index_or done.items k e)) }
        {
            let all = jobs.len();
            run_from(rt, scope, alloc, all, jobs, needs_threads)
        },
    )
}

/// Runs each job in a thread of its own, and returns their results in the order of the jobs: as many as these [len],
/// each of them one that its job may return [each]. All threads that were started have ended then.
///
/// `NoThread` if one could not be started: those before it in the list are then not started. `NoMemory` if memory runs
/// out for the results.
pub fn run_beside<R: Threads + Wait, J: Job<Output = X> + Send + Drop, X: Send + Drop>(
    rt: &R,
    alloc: Global,
    jobs: Vec<J>,
) -> Result<Vec<X>, NotRun>
    requires { All (λ job. J.can_run job) jobs.items }
    ensures len { IfOk result (λ done. length done.items ≡ length jobs.items) }
    ensures each { IfOk result (λ done. (k : ℕ) (d : _) (e : _) → k < length jobs.items → J.gives (slice_index_or jobs.items k d) (slice_index_or done.items k e)) }
{
    run_in_scope(rt, alloc, jobs, true)
}

/// Runs jobs in as many threads as can be started, and those that have none in this one. Returns their results in the
/// order of the jobs: as many as these [len], each of them one that its job may return [each]. All threads have ended
/// then.
///
/// The only error is that memory runs out for the results.
pub fn run_within<R: Threads + Wait, J: Job<Output = X> + Send + Drop, X: Send + Drop>(
    rt: &R,
    alloc: Global,
    jobs: Vec<J>,
) -> Result<Vec<X>, AllocError>
    requires { All (λ job. J.can_run job) jobs.items }
    ensures len { IfOk result (λ done. length done.items ≡ length jobs.items) }
    ensures each { IfOk result (λ done. (k : ℕ) (d : _) (e : _) → k < length jobs.items → J.gives (slice_index_or jobs.items k d) (slice_index_or done.items k e)) }
{
    match run_in_scope(rt, alloc, jobs, false) {
        Ok(done) => Ok(done),
        Err(_) => Err(AllocError),
    }
}
