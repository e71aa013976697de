//! What the steps of a node post and bring about, as a world keeps it.

ghost use Rattle.std.specs.Prelude.{◌≡◌, ◌≤◌, ◌++◌, ◌∷◌, [], OnOk, length, map};
ghost use Rattle.at_model.specs.World.{happened_at};
ghost use Rattle.world_laws.specs.Moves.{posted_at};

use crate::node::Node;
use crate::places::receiver_of;
use crate::posts::{NodeEffect, Posted};
use crate::step_outs::Posts;
use at_base::outs::{Effect, Post};
use std::alloc::AllocError;

/// Adds effects on the node of this number.
pub fn push_effects(
    happened: &mut Vec<NodeEffect>,
    number: u8,
    effects: &[Effect],
) -> Result<(), AllocError>
    ensures { OnOk result (happened.new.items ≡ happened.old.items ++ map (happened_at number) effects.now) }
{
    for effect in effects {
        happened.push(NodeEffect {
            node: number,
            what: *effect,
        })?;
    }
    Ok(())
}

fn push_post(
    nodes: &[Node],
    posted: &mut Vec<Posted>,
    number: u8,
    post: Post,
) -> Result<(), AllocError>
    requires { length nodes.now ≤ 8 }
    ensures { OnOk result (posted.new.items ≡ posted.old.items ++ posted_at number nodes.now post ∷ []) }
{
    let receiver = receiver_of(nodes, &post.to);
    posted.push(Posted {
        sender: number,
        receiver,
        content: post,
    })?;
    Ok(())
}

/// Moves the posts of the node of this number into a world.
pub fn push_posts(
    nodes: &[Node],
    posted: &mut Vec<Posted>,
    number: u8,
    posts: Posts,
) -> Result<(), AllocError>
    requires { length nodes.now ≤ 8 }
    ensures { OnOk result (posted.new.items ≡ posted.old.items ++ map (posted_at number nodes.now) posts) }
{
    for post in posts.into_vec() {
        push_post(nodes, posted, number, post)?;
    }
    Ok(())
}
