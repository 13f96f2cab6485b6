//! What the best reply comes to from a node on.
ghost use Rattle.std.specs.Prelude.{◌≡◌, []};

use super::chosen_move::ChosenMove;
use std::alloc::Global;
use std::marker::Model;

/// What a node is worth, and the choices of the reply from it on.
#[derive(Debug, Drop)]
pub(crate) struct NodeReply {
    pub(crate) worth: i128,
    pub(crate) choices: Vec<ChosenMove>,
}

impl Model for NodeReply {
    ghost use Rattle.suit_reply.specs.NodeReplies.{NodeReplyView};

    ghost Value = { NodeReplyView };

    ghost view = { λ reply. record { worth = reply.worth; choices = reply.choices.items } };
}

impl NodeReply {
    /// This worth, and no choices.
    pub(crate) fn of(alloc: Global, worth: i128) -> NodeReply
        ensures { result ≡ record { worth = worth; choices = [] } }
    {
        NodeReply {
            worth,
            choices: Vec::new(alloc),
        }
    }
}
