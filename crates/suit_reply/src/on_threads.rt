//! The defence's best reply to a plan, found on several threads.
ghost use Rattle.std.specs.Prelude.{◌≡◌, ℕ, ◌+◌, ◌-◌, ◌*◌, ◌/◌, ◌%◌, ◌<◌, ◌≤◌, IfOk, length, min, slice_index_or};
ghost use Rattle.std.specs.Prelude.{vec_len};
ghost use Rattle.suit_plans.specs.BestReplies.{least, least_reply};
ghost use Rattle.suit_reply.specs.AgainstPlan.{IsPlanFor};
ghost use Rattle.suit_reply.specs.LayoutsReplies.{IsReplyIn};

use super::against_plan::least_from;
use super::layouts_reply::LayoutsReply;
use super::{DefenceReply, Memory};
use std::alloc::{AllocError, Global};
use std::thread;
use std::thread::Threads;
use suit_game::Gate;
use suit_layouts::ClassLayout;
use suit_plans::{DefenceMoves, Plan};
use suit_tree::Tree;

/// How many threads are to work at most.
pub const MOST_CHUNKS: usize = 4;

/// What `least` answers, found on several threads: each takes some of the class layouts, in chunks of one length,
/// and enters the gate once before its other work. There are at most `MOST_CHUNKS` of them, and one for each class
/// layout where there are no more class layouts.
///
/// # Errors
///
/// Want of memory.
pub fn least_on<R: Threads + Sync, G: Gate + Sync>(
    rt: &R,
    gate: &G,
    alloc: Global,
    tree: &Tree,
    plan: &Plan,
) -> Result<(i128, DefenceReply), Memory>
    requires { IsPlanFor tree.now plan.now }
    ensures number { IfOk result
        (λ answer. (case : IsPlanFor tree.now plan.now) → answer.0 ≡ least case.question plan.now) }
    ensures reply { IfOk result
        (λ answer. (case : IsPlanFor tree.now plan.now) → answer.1 ≡ least_reply case.question plan.now) }
{
    let size = tree.layouts().len().div_ceil(MOST_CHUNKS).max(1);
    let mut number = 0;
    let mut moves = Vec::new(alloc);
    for reply in replies_in_chunks(rt, gate, alloc, tree, plan, size)? {
        let mut reply = reply?;
        number += reply.number;
        moves.append(&mut reply.moves)?;
    }
    Ok((number, DefenceMoves::of(moves)))
}

// The best reply in each chunk of so many class layouts, found in a thread of its own.
fn replies_in_chunks<R: Threads + Sync, G: Gate + Sync>(
    rt: &R,
    gate: &G,
    alloc: Global,
    tree: &Tree,
    plan: &Plan,
    size: usize,
) -> Result<Vec<Result<LayoutsReply, AllocError>>, AllocError>
    requires asked { IsPlanFor tree.now plan.now }
    requires size { 0 < size }
    ensures chunks { IfOk result (λ replies. vec_len replies
        ≡ length tree.now.layouts.items / size + min 1 (length tree.now.layouts.items % size)) }
    ensures each { IfOk result (λ replies. (n : ℕ) (d : _) → n < vec_len replies
        → (n * size < length tree.now.layouts.items)
        × IfOk (slice_index_or replies.items n d) (λ reply. (case : IsPlanFor tree.now plan.now)
        → IsReplyIn case.question plan.now (n * size) (min size (length tree.now.layouts.items - n * size)) reply.number
        reply.moves.items)) }
{
    let replies = thread::map_chunks(
        rt,
        alloc,
        tree.layouts(),
        size,
        &|start: usize, chunk: &[(ClassLayout, u64)]| -> Result<LayoutsReply, AllocError>
            requires { IsPlanFor tree.now plan.now × (start + length chunk.now ≤ length tree.now.layouts.items) }
            ensures { IfOk result (λ reply. (case : IsPlanFor tree.entry.now plan.entry.now)
                → IsReplyIn case.question plan.entry.now start (length chunk.now) reply.number reply.moves.items) }
        {
            gate.enter();
            least_from(alloc, tree, plan, start, chunk.len())
        },
    )?;
    Ok(replies)
}
