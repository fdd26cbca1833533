//! What there is to do for the threads of the nodes.
use crate::nodes::{ERRAND_THREADS, PEER_THREADS};
use shared_house::DeskVisitor;
use site_desk::DeskName;
use std::alloc::{AllocError, Global};

/// A visitor for one more worker: a copy, but for the last one the visitor itself, since each has a place and there are no more of these.
fn next_visitor<J: DeskName>(
    spare: &mut Option<DeskVisitor<J>>,
    is_last: bool,
) -> Option<DeskVisitor<J>> {
    if is_last {
        return spare.take();
    }
    match spare {
        Some(visitor) => visitor.again().ok(),
        None => None,
    }
}

/// What a thread is to do.
#[derive(Drop)]
pub(crate) enum Task<J: DeskName> {
    /// It serves the clients of the node at this place, with this visitor.
    Serve(usize, DeskVisitor<J>),
    /// It answers what the workers of the node at this place leave.
    Errands(usize),
    /// It answers other nodes at the port of the node at this place.
    Peers(usize),
}

/// Adds the tasks of so many workers for the node at this place. The last worker of all gets the visitor itself.
fn add_workers<J: DeskName>(
    tasks: &mut Vec<Task<J>>,
    at: usize,
    workers: usize,
    is_last_node: bool,
    spare: &mut Option<DeskVisitor<J>>,
) -> Result<(), AllocError> {
    for worker in 0..workers {
        let is_last = is_last_node && worker + 1 == workers;
        let visitor = next_visitor(spare, is_last).ok_or(AllocError)?;
        tasks.push(Task::Serve(at, visitor))?;
    }
    Ok(())
}

/// Adds the tasks of the threads that may wait, for the node at this place.
fn add_slow<J: DeskName>(tasks: &mut Vec<Task<J>>, at: usize) -> Result<(), AllocError> {
    for _ in 0..ERRAND_THREADS {
        tasks.push(Task::Errands(at))?;
    }
    for _ in 0..PEER_THREADS {
        tasks.push(Task::Peers(at))?;
    }
    Ok(())
}

/// The same as `tasks_of`, with a visitor that is spare.
fn tasks_with<J: DeskName>(
    alloc: Global,
    nodes: usize,
    workers: usize,
    spare: &mut Option<DeskVisitor<J>>,
) -> Result<Vec<Task<J>>, AllocError> {
    let mut tasks = Vec::new(alloc);
    for at in 0..nodes {
        add_workers(&mut tasks, at, workers, at + 1 == nodes, spare)?;
        add_slow(&mut tasks, at)?;
    }
    Ok(tasks)
}

/// The tasks of so many workers for each of so many nodes, and of the threads that may wait. The workers take the visitor, and copies of it.
pub(crate) fn tasks_of<J: DeskName>(
    alloc: Global,
    nodes: usize,
    workers: usize,
    visitor: DeskVisitor<J>,
) -> Result<Vec<Task<J>>, AllocError> {
    let mut spare = Some(visitor);
    tasks_with(alloc, nodes, workers, &mut spare)
}
