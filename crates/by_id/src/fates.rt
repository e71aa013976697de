//! What an event does to an item that was found, with no copy of one that stays as it is.

ghost use Rattle.std.specs.Prelude.{◌≡◌, ◌++◌, ◌∷◌, IfOk, OnOk, [], Some, map};
ghost use Rattle.at_base.specs.declared.outs.Out.TheVariants as out;
ghost use Rattle.at_model.specs.Moves.{ignored};
ghost use Rattle.by_id.specs.Fates.{meant};
ghost use Rattle.by_id.specs.Plans.{alteration_of, chosen, turned};
ghost use Rattle.by_id.specs.declared.fates.Choice.TheVariants as choices;

use crate::list::Alteration;
use crate::plan::{Branch, Plan, unchanged};
use at_base::id::Id;
use at_base::outs::{Effect, Effects, Out, OutList, Outs};
use at_base::record::Record;
use at_posts::list::PostList;
use std::alloc::{AllocError, Global};

/// What becomes of an item.
#[derive(Debug, Drop)]
pub enum Fate<T, M> {
    /// It stays as it is.
    Keep,
    /// It is forgotten.
    Forget,
    /// It is given anew.
    Put(T),
    /// It is moved where it stands.
    Move(M),
}

/// An item's fate, what is posted, and what happened, in order.
#[derive(Debug)]
pub struct Turn<T, M> {
    pub fate: Fate<T, M>,
    pub posts: PostList,
    pub effects: Effects,
}

impl<T: Drop, M: Drop> Drop for Turn<T, M> {
    fn drop(self) {
        let Turn {
            fate: _fate,
            posts: _posts,
            effects: _effects,
        } = self;
    }
}

/// What an event does to an item: at once, or behind a record.
#[derive(Debug, Drop)]
pub enum Choice<T, M> {
    Goes(Turn<T, M>),
    Records {
        entry: Record,
        /// What is done where the record stands.
        stands: Turn<T, M>,
        /// What is done where it is certainly absent; none where the step is undone.
        absent: Option<Turn<T, M>>,
    },
}

impl<T: Drop, M: Drop> Turn<T, M> {
    /// This becomes of the item, and this is posted.
    pub fn silent(alloc: Global, fate: Fate<T, M>, posts: PostList) -> Turn<T, M>
        ensures { result ≡ record { fate = fate; posts = posts; effects = [] } }
    {
        Turn {
            fate,
            posts,
            effects: Effects::from_vec(Vec::new(alloc)),
        }
    }

    /// The same, and this happened.
    pub fn with_effect(
        alloc: Global,
        fate: Fate<T, M>,
        posts: PostList,
        happened: Effect,
    ) -> Result<Turn<T, M>, AllocError>
        ensures { IfOk result
            (λ turn. turn ≡ record { fate = fate; posts = posts; effects = happened ∷ [] }) }
    {
        let mut effects = Effects::from_vec(Vec::new(alloc));
        effects.push(happened)?;
        Ok(Turn {
            fate,
            posts,
            effects,
        })
    }
}

impl<T: Drop, M: Drop> Fate<T, M> {
    /// What becomes of the list.
    fn into_alteration(self, id: Id) -> Alteration<T, M>
        ensures { result ≡ alteration_of id self }
    {
        match self {
            Fate::Keep => Alteration::Keep,
            Fate::Forget => Alteration::Put { id, item: None },
            Fate::Put(item) => Alteration::Put {
                id,
                item: Some(item),
            },
            Fate::Move(by) => Alteration::Move { id, by },
        }
    }
}

impl<T: Drop, M: Drop> Turn<T, M> {
    /// What is done to the item of this id, behind this answer.
    fn into_branch(self, mut answer: OutList, id: Id) -> Result<Branch<T, M>, AllocError>
        ensures { IfOk result (λ branch. branch ≡ turned answer id self) }
    {
        let Turn {
            fate,
            posts,
            effects,
        } = self;
        add_posts(&mut answer, posts)?;
        Ok(Branch {
            change: fate.into_alteration(id),
            outs: Outs {
                outs: answer,
                effects,
            },
        })
    }
}

impl<T: Drop, M: Drop> Choice<T, M> {
    /// Nothing happens.
    pub fn ignored(alloc: Global) -> Choice<T, M>
        ensures { (item : T) (moved : M → T → T) → meant moved (Some item) result ≡ ignored item }
    {
        Choice::Goes(Turn::silent(alloc, Fate::Keep, PostList::new(alloc)))
    }
}

/// Sends these posts behind what is sent.
fn add_posts(outs: &mut OutList, posts: PostList) -> Result<(), AllocError>
    ensures { OnOk result (outs.new ≡ outs.old ++ map out.Post posts) }
{
    for post in posts.into_vec() {
        outs.push(Out::Post(post))?;
    }
    Ok(())
}

/// The plan of what is done behind a record.
fn recorded<T: Drop, M: Drop>(
    alloc: Global,
    answer: OutList,
    id: Id,
    entry: Record,
    stands: Turn<T, M>,
    absent: Option<Turn<T, M>>,
) -> Result<Plan<T, M>, AllocError>
    ensures { IfOk result (λ plan. plan ≡ chosen answer id (choices.Records entry stands absent)) }
{
    let landed = stands.into_branch(answer.clone()?, id)?;
    match absent {
        Some(turn) => Ok(Plan::Recorded {
            entry,
            landed,
            absent: turn.into_branch(answer, id)?,
            undone: false,
        }),
        None => Ok(Plan::Recorded {
            entry,
            landed,
            absent: unchanged(alloc, answer),
            undone: true,
        }),
    }
}

impl<T: Drop, M: Drop> Choice<T, M> {
    /// The plan of what is done to the item of this id, behind this answer.
    pub fn into_plan(self, alloc: Global, answer: OutList, id: Id) -> Result<Plan<T, M>, AllocError>
        ensures { IfOk result (λ plan. plan ≡ chosen answer id self) }
    {
        match self {
            Choice::Goes(turn) => Ok(Plan::Plain(turn.into_branch(answer, id)?)),
            Choice::Records {
                entry,
                stands,
                absent,
            } => recorded(alloc, answer, id, entry, stands, absent),
        }
    }
}
