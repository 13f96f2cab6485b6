//! How the tree of a question is grown.
ghost use Rattle.std.specs.Prelude.{◌≡◌, ◌+◌, ◌<◌, ◌≤◌, [], All, IfOk, IfErr, OnOk, length, map, vec_len};
ghost use Rattle.std.specs.Prelude.{if◌then◌else◌};
ghost use Rattle.std.specs.List.{range_with_len};
ghost use Rattle.suit_tree.specs.declared.tree_end.TreeEnd.TheVariants.{Nodes, Memory};
ghost use Rattle.suit_game.specs.Validity.{IsValid};
ghost use Rattle.suit_tree.specs.WhatIsCounted.{node_count};
ghost use Rattle.suit_tree.specs.Growing.{HasRoom, IsGrown, branch_seen, branched, pairs_from};
ghost use Rattle.suit_tree.specs.Nodes.{move_to};
ghost use Rattle.suit_tree.specs.Trees.{IsTreeOf};
ghost use Rattle.suit_tree.specs.TreeEnds.{IsPastBudget};
ghost use Rattle.suit_classes.specs.Classes.{sizes_of};
ghost use Rattle.suit_classes.specs.ClassPlaces.{class_decided, class_payoff};
ghost use Rattle.suit_layouts.specs.ClassLayouts.{class_layouts};
ghost use Rattle.suit_layouts.specs.declared.class_list.TheConstants.{MOST_CLASS_LAYOUTS};

use super::branch::{Branch, own_branches, their_branches};
use super::{Node, Tree, TreeEnd};
use bumpalo::Bump;
use std::alloc::{AllocError, Global};
use suit_classes::{ClassMove, ClassPlace, ClassTurn, Classes};
use suit_game::{MOST_MOVES, Question};
use suit_layouts::{ClassLayout, class_layouts};

// What a tree grows from and in: the class layouts of positive weight, the budget of pairs, and the arena of the nodes.
#[derive(Drop)]
struct Growth<'a, 'g> {
    alloc: Global,
    arena: &'a Bump<Global>,
    layouts: &'g [(ClassLayout, u64)],
    budget: u32,
}

/// The tree of a question, as long as it has no more pairs than the question's budget. It is not
/// grown past the budget, so a question of any size is refused in the time and memory of its budget.
/// Its nodes stand in the arena, so it is no longer used once the arena is reset.
///
/// # Errors
///
/// `Nodes` exactly where the tree has more pairs than the budget, but for want of memory, which is `Memory`.
pub fn grow<'a>(
    alloc: Global,
    arena: &'a Bump<Global>,
    question: &Question,
) -> Result<Tree<'a>, TreeEnd>
    requires { IsValid question.now }
    ensures tree { IfOk result (λ tree. IsTreeOf question.now tree) }
    ensures within { OnOk result (node_count question.now ≤ question.now.nodes) }
    ensures end { IfErr result (λ end. IsPastBudget (node_count question.now) question.now.nodes end) }
{
    let layouts = layouts_of(alloc, question)?;
    let all = indices_of(alloc, arena, layouts.len() as u8)?;
    let mut pairs = 0;
    let growth = Growth {
        alloc,
        arena,
        layouts: &layouts,
        budget: question.nodes,
    };
    let start = ClassPlace::start(question, &Classes::of(question));
    let root = growth.node(None, start, all, MOST_MOVES, &mut pairs)?;
    Ok(Tree {
        layouts,
        root,
        pairs,
    })
}

// The class layouts of positive weight, each with its weight.
fn layouts_of(alloc: Global, question: &Question) -> Result<Vec<(ClassLayout, u64)>, TreeEnd>
    requires { IsValid question.now }
    ensures layouts { IfOk result (λ layouts. layouts.items ≡ class_layouts question.now (sizes_of question.now)) }
    ensures few { IfOk result (λ layouts. vec_len layouts ≤ MOST_CLASS_LAYOUTS) }
    ensures end { IfErr result (λ end. end ≡ Memory) }
{
    let sizes = Classes::of(question).sizes();
    Ok(class_layouts(alloc, question, sizes.as_slice())?)
}

// The numbers below one, in the arena.
fn indices_of<'a>(alloc: Global, arena: &'a Bump<Global>, count: u8) -> Result<&'a [u8], TreeEnd>
    ensures indices { IfOk result (λ indices. indices.now ≡ range_with_len 0 count) }
    ensures end { IfErr result (λ end. end ≡ Memory) }
{
    let mut indices = Vec::with_capacity(alloc, count as usize)?;
    for index in 0..count {
        indices.push(index)?;
    }
    Ok(arena.try_alloc_slice_copy(&indices)?)
}

impl<'a> Growth<'a, '_> {
    // The node of a position, with all below it for at most so many moves more. The pairs are counted on.
    fn node(
        &self,
        by: Option<ClassMove>,
        position: ClassPlace,
        indices: &'a [u8],
        more: u8,
        pairs: &mut u32,
    ) -> Result<Node<'a>, TreeEnd>
        requires room { HasRoom more position }
        requires some { 0 < length indices.now }
        requires indices { All (λ index. index < length self.now.layouts.now) indices.now }
        requires within { pairs.old ≤ self.now.budget }
        ensures last { IfOk result (λ node. move_to node ≡ by) }
        ensures grown { IfOk result (λ node. IsGrown more self.now.layouts.now position indices.now node) }
        ensures counted { OnOk result (pairs.new
            ≡ pairs.old + pairs_from more self.now.layouts.now position indices.now) }
        ensures within { OnOk result (pairs.new ≤ self.now.budget) }
        ensures end { IfErr result (λ end. IsPastBudget (pairs.old
            + pairs_from more self.now.layouts.now position indices.now) self.now.budget end) }
    {
        self.count(indices.len(), pairs)?;
        let branches = self.branches(&position, indices, more)?;
        let mut children = Vec::with_capacity(self.alloc, branches.len())?;
        for branch in &branches {
            let next = position.step(branch.mv);
            let child = self.node(Some(branch.mv), next, branch.indices, more - 1, pairs)?;
            children.push(child)?;
        }
        Ok(Node {
            by,
            turn: position.turn(),
            payoff: payoff_of(&position),
            layouts: indices,
            children: self.arena.try_alloc_slice_copy(&children)?,
        })
    }

    // The moves by which a position goes on, where at most so many may come, each with the indices that allow it.
    fn branches(
        &self,
        position: &ClassPlace,
        indices: &'a [u8],
        more: u8,
    ) -> Result<Vec<Branch<'a>>, AllocError>
        requires some { 0 < length indices.now }
        requires indices { All (λ index. index < length self.now.layouts.now) indices.now }
        ensures { IfOk result (λ branches. map branch_seen branches.items
            ≡ branched more self.now.layouts.now position.now indices.now) }
    {
        if more == 0 {
            return Ok(Vec::new(self.alloc));
        }
        match position.turn() {
            ClassTurn::Lead => own_branches(self.alloc, position, indices),
            ClassTurn::Declarer(_) => own_branches(self.alloc, position, indices),
            ClassTurn::Defence(_) => {
                their_branches(self.alloc, self.arena, self.layouts, position, indices)
            }
            ClassTurn::Decided => Ok(Vec::new(self.alloc)),
        }
    }

    // Counts so many pairs more, if the budget has room for them.
    fn count(&self, more: usize, pairs: &mut u32) -> Result<(), TreeEnd>
        requires within { pairs.old ≤ self.now.budget }
        ensures counted { OnOk result (pairs.new ≡ pairs.old + more) }
        ensures within { OnOk result (pairs.new ≤ self.now.budget) }
        ensures end { IfErr result (λ end. (end ≡ Nodes self.now.budget) × (self.now.budget < pairs.old + more)) }
    {
        let room = self.budget - *pairs;
        if more > room as usize {
            return Err(TreeEnd::Nodes {
                budget: self.budget,
            });
        }
        *pairs += more as u32;
        Ok(())
    }
}

// What the tricks won are worth where a position is decided, and 0 where it is not.
fn payoff_of(position: &ClassPlace) -> u64
    ensures { result ≡ (if class_decided position.now then class_payoff position.now else 0) }
{
    if position.decided() {
        position.payoff()
    } else {
        0
    }
}
