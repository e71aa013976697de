//! Laws of where posts go.

ghost use Rattle.addressed_posts.specs.AddressedPosts.{PostsAreAddressed};

/// Every message that a step of a book posts has an endpoint that it goes to.
#[tactic(auto, using(crate::proofs::Steps::posts_are_addressed))]
pub fn posts_are_addressed()
    ensures { PostsAreAddressed }
{}
