//! The texts of pages.

ghost use Rattle.std.specs.Prelude.{ℕ, List, ◌≡◌, IfOk};
ghost use Rattle.shown_pages.specs.declared.page.Counts.{Counts as Counted};
ghost use Rattle.shown_pages.specs.declared.page.Page.{Page as Asked};

use crate::page::{Counts, Page};
use std::alloc::{AllocError, Global};

/// The texts of pages, each as it is when it is asked for.
pub trait Pages {
    ghost says: { Self → Asked → Counted → List ℕ };

    /// The text of a page, with what a machine counted.
    fn text(&self, alloc: Global, page: Page, counts: &Counts) -> Result<Vec<u8>, AllocError>
        ensures { IfOk result (λ text. text.items ≡ says self.now page counts.now) };
}
