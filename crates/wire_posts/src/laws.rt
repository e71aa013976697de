//! Laws of what is posted.

ghost use Rattle.std.specs.Prelude.{◌≡◌, ℕ, List};
ghost use Rattle.at_base.specs.declared.outs.Post.{Post};
ghost use Rattle.wire_posts.specs.Envelopes.{IsTextOf};
ghost use Rattle.wire_posts.specs.Returns.{Returns};

/// A post has one text, and it is read as what was posted.
#[tactic(auto, using(crate::proofs::Arrivals::text_returns))]
pub fn what_is_posted_arrives()
    ensures one { (post : Post) → (x : List ℕ) → (y : List ℕ) → IsTextOf post x → IsTextOf post y → x ≡ y }
    ensures arrives { (post : Post) → (text : List ℕ) → IsTextOf post text → Returns post text }
{}
