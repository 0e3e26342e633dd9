//! A worker of a crew, before its thread begins and behind it.

ghost use Rattle.std.specs.Prelude.{◌≡◌};
ghost use Rattle.mt_crew.specs.Members.{HasWorked, MayWork, left_of, start_of};

use mt_durable::Keeper;
use mt_model::{SessionRows, Verdicts};
use mt_outside::{Gate, Outlet};
use mt_owners::{Done, NodePass, SharedNode, worker};
use mt_queue::Jobs;
use std::alloc::Global;
use std::mem;
use std::sync::Wait;

/// A worker: its number, the sessions that are its own, and where it stands.
pub(crate) struct Member<O> {
    pub(crate) number: u32,
    pub(crate) rows: SessionRows,
    pub(crate) post: Post<O>,
}

impl<O: Drop> Drop for Member<O> {
    fn drop(self) {
        let Member {
            number: _,
            rows: _,
            post: _,
        } = self;
    }
}

/// Where a worker stands.
pub(crate) enum Post<O> {
    /// Its thread has not begun, and this is what it begins with.
    Waits {
        pass: NodePass,
        jobs: Jobs,
        outlet: O,
    },
    /// Its thread has ended, and left this.
    Left(Done<O>),
    /// Its thread goes on.
    Serves,
}

impl<O: Drop> Drop for Post<O> {
    fn drop(self) {
        match self {
            Post::Waits {
                pass: _,
                jobs: _,
                outlet: _,
            } => {}
            Post::Left(_) => {}
            Post::Serves => {}
        }
    }
}

impl<O: Drop> Post<O> {
    // What its thread begins with, where it has not begun.
    fn into_start(self) -> Option<(NodePass, Jobs, O)>
        ensures { result ≡ start_of self }
    {
        match self {
            Post::Waits { pass, jobs, outlet } => Some((pass, jobs, outlet)),
            Post::Left(_) => None,
            Post::Serves => None,
        }
    }

    // What its thread has left, where it has ended.
    fn into_left(self) -> Option<Done<O>>
        ensures { result ≡ left_of self }
    {
        match self {
            Post::Left(ended) => Some(ended),
            Post::Waits {
                pass: _,
                jobs: _,
                outlet: _,
            } => None,
            Post::Serves => None,
        }
    }
}

impl<O: Drop> Member<O> {
    /// What its thread has left, where it has ended.
    pub(crate) fn into_left(self) -> Option<Done<O>>
        ensures { result ≡ left_of self.post }
    {
        let Member {
            number: _,
            rows: _,
            post,
        } = self;
        post.into_left()
    }
}

impl<O: Outlet + Drop> Member<O> {
    /// What its thread does, from its first job to the end message.
    pub(crate) fn serve<R: Wait, K: Keeper + Drop + Send, V: Verdicts + Drop, G: Gate>(
        &mut self,
        rt: &R,
        alloc: Global,
        node: &SharedNode<K, V>,
        gate: &G,
    )
        requires ready { MayWork node.now self.old }
        ensures worked { HasWorked O.given O.faults node.now self.old self.new }
    {
        let Some((pass, jobs, outlet)) = mem::replace(&mut self.post, Post::Serves).into_start()
        else {
            unreachable!()
        };
        self.post = Post::Left(worker(
            rt,
            alloc,
            node,
            pass,
            self.number,
            &self.rows,
            jobs,
            outlet,
            gate,
        ));
    }
}
