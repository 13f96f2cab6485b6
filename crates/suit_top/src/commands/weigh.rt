//! `weigh`: the class layouts of positive weight of a question, each with its weight, and the total.
ghost use Rattle.std.specs.Prelude.{◌≡◌, ◌++◌, IfOk, OnOk, map, string_bytes};
ghost use Rattle.std.specs.List.{flat_map};
ghost use Rattle.suit_game.specs.Validity.{IsValid};
ghost use Rattle.suit_top.specs.Commands.Weigh.{is_weigh, count_text, layout_line};
ghost use Rattle.suit_top.specs.Commands.Weigh.{weights_text, due_weighing, Weighs};
ghost use Rattle.suit_top.specs.Texts.{text_bytes};

use super::is_only;
use crate::reply::Reply;
use crate::status::Status;
use std::alloc::{AllocError, Global};
use std::fmt::Write;
use suit_classes::Classes;
use suit_game::{Question, total};
use suit_layouts::{ClassLayout, class_layouts};

/// Whether the words are those of the command.
pub fn are_words(words: &[&str]) -> bool
    ensures { result ≡ is_weigh (map (λ word. word.now) words.now) }
{
    is_only("weigh", words)
}

/// The reply to a question.
pub fn reply(alloc: Global, question: &Question) -> Result<Reply, AllocError>
    requires { IsValid question.now }
    ensures status { IfOk result (λ reply. reply.status ≡ (due_weighing question.now).status) }
    ensures text { IfOk result (λ reply. text_bytes reply.text ≡ (due_weighing question.now).text) }
    ensures says { IfOk result (λ reply. reply.status ≡ Status.Done → Weighs question.now (text_bytes reply.text)) }
{
    let sizes = Classes::of(question).sizes();
    let layouts = class_layouts(alloc, question, sizes.as_slice())?;
    Ok(Reply::done(weights_text(alloc, &layouts, total(question))?))
}

/// The text of some class layouts, each with its weight, and of a total.
#[tactic(auto, unfolding(crate::specs::Commands::Weigh::weights_text))]
fn weights_text(
    alloc: Global,
    layouts: &[(ClassLayout, u64)],
    total: u64,
) -> Result<String, AllocError>
    ensures { IfOk result (λ text. string_bytes text ≡ weights_text layouts.now total) }
{
    let mut text = String::new(alloc);
    writeln!(text, "weights {}", layouts.len())?;
    add_layouts(&mut text, layouts)?;
    write!(text, "total {total}\nend\n")?;
    Ok(text)
}

/// A line for each class layout.
fn add_layouts(text: &mut String, layouts: &[(ClassLayout, u64)]) -> Result<(), AllocError>
    ensures { OnOk result (string_bytes text.new ≡ string_bytes text.old ++ flat_map layout_line layouts.now) }
{
    for (layout, weight) in layouts {
        add_layout(text, layout.counts(), *weight)?;
    }
    Ok(())
}

/// The line of one class layout: West's counts, and the weight.
#[tactic(auto, unfolding(crate::specs::Commands::Weigh::layout_line))]
fn add_layout(text: &mut String, counts: &[u8], weight: u64) -> Result<(), AllocError>
    ensures { OnOk result (string_bytes text.new ≡ string_bytes text.old ++ layout_line (counts.now, weight)) }
{
    write!(text, "west")?;
    add_counts(text, counts)?;
    writeln!(text, " : {weight}")
}

/// Counts, each behind a space.
fn add_counts(text: &mut String, counts: &[u8]) -> Result<(), AllocError>
    ensures { OnOk result (string_bytes text.new ≡ string_bytes text.old ++ flat_map count_text counts.now) }
{
    for count in counts {
        add_count(text, *count)?;
    }
    Ok(())
}

/// A count behind a space.
#[tactic(auto, unfolding(crate::specs::Commands::Weigh::count_text))]
fn add_count(text: &mut String, count: u8) -> Result<(), AllocError>
    ensures { OnOk result (string_bytes text.new ≡ string_bytes text.old ++ count_text count) }
{
    write!(text, " {count}")
}
